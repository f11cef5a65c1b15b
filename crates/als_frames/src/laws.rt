ghost use Rattle.std.specs.Prelude.{◌≡◌, ℕ, ◌<◌, ◌≤◌, List, [], ◌∷◌, ◌++◌};
ghost use Rattle.als_record.specs.declared.record.Record.{Record as AnyRecord};
ghost use Rattle.als_record.specs.LogText.{end_of, IsLog};
ghost use Rattle.als_frames.specs.Frames.{Paged};
ghost use Rattle.als_frames.specs.Images.{AreFramesOf, synced_lsn};

/// A law: pages that are a log's are that log's with one more record.
pub fn record_changes_no_page()
    ensures { (log : List AnyRecord) (synced : ℕ → ℕ) (below : ℕ) (pages : Paged) (r : AnyRecord)
        → IsLog pages.pages (log ++ r ∷ [])
        → r.lsn.0 ≡ end_of log → AreFramesOf log synced below pages
        → AreFramesOf (log ++ r ∷ []) synced below pages }
{}

/// A law: where pages are a log's, the page_LSN of a page's image last synced is the one that the
/// content of its block at the last sync spells.
pub fn synced_lsn_is_spelled()
    ensures { (log : List AnyRecord) (synced : ℕ → ℕ) (below : ℕ) (pages : Paged) (page : ℕ)
        → page < pages.pages
        → AreFramesOf log synced below pages → synced_lsn pages page ≡ synced page }
{}

/// A law: they stay so where more of the log survives each crash.
pub fn mark_changes_no_page()
    ensures { (log : List AnyRecord) (synced : ℕ → ℕ) (below more : ℕ) (pages : Paged)
        → below ≤ more
        → AreFramesOf log synced below pages → AreFramesOf log synced more pages }
{}
