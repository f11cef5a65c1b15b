ghost use Rattle.std.specs.Prelude.{◌≡◌, ℕ, ◌<◌, ◌≤◌, ◌++◌, ◌∷◌, [], List, length, Some, None};
ghost use Rattle.std.specs.Prelude.{IsTrue};
ghost use Rattle.std.specs.List.{AllByRecursion};
ghost use Rattle.als_record.specs.declared.lsn.Lsn.{Lsn as AnyLsn};
ghost use Rattle.als_record.specs.declared.record.Record.{Record as AnyRecord};
ghost use Rattle.als_record.specs.LogText.{follow_from};
ghost use Rattle.als_record.specs.Pages.{change_of, changes_above};
ghost use Rattle.als_dirty.specs.declared.dirty_page.DirtyPage.{DirtyPage as AnyPage};
ghost use Rattle.als_dirty.specs.Images.{IsDirtyPageOf, AreDirtyPagesOf};

/// A law, the meaning of RecLSN: an image of a page that a crash may leave, one with the page_LSN
/// of the image last synced or a later one, lacks no record of the log below the row's RecLSN; and
/// where the page has no row, it lacks none.
pub fn rec_lsn_covers_each_image()
    ensures row { (log : List AnyRecord) (page synced written lsn : ℕ) (e : AnyPage)
        (first : AnyLsn) → IsTrue (follow_from 16 log)
        → IsDirtyPageOf log page synced written e → synced ≤ lsn → e.synced ≡ Some first
        → AllByRecursion (λ c. first.0 ≤ c.lsn.0) (changes_above log page lsn) }
    ensures no_row { (log : List AnyRecord) (page synced written lsn : ℕ) (e : AnyPage)
        → IsDirtyPageOf log page synced written e → synced ≤ lsn → e.synced ≡ None
        → changes_above log page lsn ≡ [] }
{}

/// A law: a record that changes no page leaves the table that of the log.
pub fn other_records_pass()
    ensures { (log : List AnyRecord) (r : AnyRecord) (synced written : ℕ → ℕ) (pages : List AnyPage)
        → change_of r ≡ None
        → AreDirtyPagesOf log synced written pages
        → AreDirtyPagesOf (log ++ r ∷ []) synced written pages }
{}
