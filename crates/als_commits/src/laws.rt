ghost use Rattle.std.specs.Prelude.{◌≡◌, true, ℕ, List, ◌++◌, length, take, ◌+◌, ◌≤◌};
ghost use Rattle.als_record.specs.declared.record.Record.{Record as AnyRecord};
ghost use Rattle.als_record.specs.Validity.{is_valid};
ghost use Rattle.als_record.specs.LogText.{end_of};
ghost use Rattle.als_record.specs.Commits.{commits_of};
ghost use Rattle.als_commits.specs.Counting.{ended_count};
ghost use Rattle.als_commits.specs.Fronts.{HasFront};

/// A law: a valid log has far fewer commits than bytes.
pub fn commits_are_few()
    ensures { (log : List AnyRecord) → is_valid log ≡ true
        → length (commits_of log) + 16 ≤ end_of log }
{}

/// A law: at or above its end each commit of a valid log has ended.
pub fn all_commits_end()
    ensures { (log : List AnyRecord) (acknowledged : ℕ) → is_valid log ≡ true
        → end_of log ≤ acknowledged → ended_count acknowledged (commits_of log)
        ≡ length (commits_of log) }
{}

/// A law: no more commits have ended than there are. Where a log loses records behind an offset and
/// gets others, the commits that had ended there are those of the front that stays, and they stay
/// counted.
pub fn counts_stay()
    ensures limit { (log : List AnyRecord) (offset : ℕ)
        → ended_count offset (commits_of log) ≤ length (commits_of log) }
    ensures kept { (front lost : List AnyRecord) (offset : ℕ) → is_valid (front ++ lost) ≡ true
        → offset ≤ end_of front
        → ended_count offset (commits_of (front ++ lost)) ≡ ended_count offset (commits_of front) }
    ensures rises { (front lost more : List AnyRecord) (old new : ℕ)
        → is_valid (front ++ lost) ≡ true → is_valid (front ++ more) ≡ true → old ≤ end_of front
        → old ≤ new
        → ended_count old (commits_of (front ++ lost))
        ≤ ended_count new (commits_of (front ++ more)) }
{}

/// A law: the first commits of a valid log, however many, are those of a front of it that ends with
/// a commit.
pub fn commits_have_fronts()
    ensures { (log : List AnyRecord) → is_valid log ≡ true → (count : ℕ)
        → count ≤ length (commits_of log) → HasFront log (take count (commits_of log)) }
{}
