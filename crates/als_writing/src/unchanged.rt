ghost use Rattle.std.specs.Prelude.{◌≡◌, ℕ, ◌<◌, ◌≤◌, List, ◌++◌, IsTrue, if◌then◌else◌};
ghost use Rattle.std.specs.List.{list_any};
ghost use Rattle.als_record.specs.declared.key.Key.{Key as AnyKey};
ghost use Rattle.als_record.specs.declared.record.Record.{Record as AnyRecord};
ghost use Rattle.als_record.specs.LogText.{end_of};
ghost use Rattle.als_record.specs.Images.{same_key};
ghost use Rattle.als_record.specs.Validity.{IsValidLog, is_valid};
ghost use Rattle.als_record.specs.Commits.{Write as AnyWrite, commits_of, seen_after};
ghost use Rattle.als_writing.specs.Writing.{updates, transaction, last_write, MayWrite};

/// A transaction moves the last write of each key that it writes to its commit record, and no other.
pub fn transaction_is_the_last_write()
    ensures { (pages : ℕ) → (log : List AnyRecord) → (t : ℕ) → (writes : List AnyWrite)
        → IsValidLog pages log → MayWrite pages log t writes → (k : AnyKey)
        → last_write (log ++ transaction log t writes) k
        ≡ (if list_any (λ w. same_key w.key k) writes
        then end_of (log ++ updates log t writes) else last_write log k) }
{}

/// A key whose last write is at `l` or below is unchanged since `l`: readers see what they saw when
/// the log ended behind `l`.
pub fn unchanged_key_is_seen_as_then()
    ensures { (log more : List AnyRecord) → (k : AnyKey) → (l : ℕ)
        → IsTrue (is_valid (log ++ more)) → l < end_of log → last_write (log ++ more) k ≤ l
        → seen_after (commits_of (log ++ more)) k ≡ seen_after (commits_of log) k }
{}
