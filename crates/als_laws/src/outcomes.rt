ghost use Rattle.std.specs.Prelude.{◌≡◌, ℕ, ◌<◌, ◌++◌, List, [], None, IsTrue, slice_index_or};
ghost use Rattle.als_record.specs.declared.key.Key.{Key as AnyKey};
ghost use Rattle.als_record.specs.declared.record.Record.{Record as AnyRecord};
ghost use Rattle.als_record.specs.Pages.{page_at, changes_above};
ghost use Rattle.als_record.specs.Images.{image_now, won};
ghost use Rattle.als_record.specs.Validity.{is_valid};
ghost use Rattle.als_record.specs.Commits.{Commit as AnyCommit, commits_of, seen_after};

/// A reader that has taken in the commits of a valid log, one after another, sees at each key what
/// the surviving updates of its committed transactions left there; and the commits of a front of
/// the log are a front of its commits.
pub fn readers_see_what_won()
    ensures seen { (log : List AnyRecord) → IsTrue (is_valid log) → (k : AnyKey)
        → seen_after (commits_of log) k ≡ won log k }
    ensures front { (log more : List AnyRecord) → IsTrue (is_valid (log ++ more))
        → (cs : List AnyCommit) × (commits_of (log ++ more) ≡ commits_of log ++ cs) }
{}

/// A page on which redo has done each of the log's changes has in each slot what the key has now
/// (ARIES: redo repeats history).
pub fn pages_show_keys()
    ensures { (log : List AnyRecord) → (k : AnyKey) → (q : ℕ) → k.slot < 15
        → changes_above log k.page q ≡ []
        → slice_index_or (page_at log k.page q).slots k.slot None ≡ image_now log k }
{}
