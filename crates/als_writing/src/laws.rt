ghost use Rattle.std.specs.Prelude.{◌≡◌, ℕ, ◌≤◌, ◌^◌, List, [], ◌∷◌, ◌++◌, fold, take, IsTrue};
ghost use Rattle.als_record.specs.declared.key.Key.{Key as AnyKey};
ghost use Rattle.als_record.specs.declared.record.Record.{Record as AnyRecord};
ghost use Rattle.als_record.specs.LogText.{end_of};
ghost use Rattle.als_record.specs.Transactions.{has_ended, unended};
ghost use Rattle.als_record.specs.Images.{image_now, won, kept};
ghost use Rattle.als_record.specs.Validity.{may_follow_all, IsValidLog};
ghost use Rattle.als_record.specs.Commits.{Write as AnyWrite, Commit as AnyCommit, commits_of, after_write, seen_after};
ghost use Rattle.als_writing.specs.Writing.{updates, transaction, rolled_back, MayWrite};

/// A primary may append a whole transaction to a valid log: an update for each write, whose before
/// image is what the key has by then, the commit and the end. Each record may follow the log with
/// those before it. The same transactions are unended afterwards.
pub fn transaction_follows()
    ensures valid { (pages : ℕ) → (log : List AnyRecord) → (t : ℕ) → (writes : List AnyWrite)
        → IsValidLog pages log → MayWrite pages log t writes
        → end_of (log ++ transaction log t writes) ≤ 2 ^ 64
        → IsValidLog pages (log ++ transaction log t writes) }
    ensures each { (pages : ℕ) → (log : List AnyRecord) → (t : ℕ) → (writes : List AnyWrite)
        → IsValidLog pages log → MayWrite pages log t writes
        → IsTrue (may_follow_all log (transaction log t writes)) }
    ensures unended { (pages : ℕ) → (log : List AnyRecord) → (t : ℕ) → (writes : List AnyWrite)
        → IsValidLog pages log → MayWrite pages log t writes
        → unended (log ++ transaction log t writes) ≡ unended log }
{}

/// A transaction adds one commit to a log: this one, with these writes, at its commit record's LSN.
/// Each key has the last of the writes to it, and what it had before if there is none: in what has
/// committed, in what a takeover keeps, now, and for readers of all commits.
pub fn transaction_commits()
    ensures commits { (pages : ℕ) → (log : List AnyRecord) → (t : ℕ) → (writes : List AnyWrite)
        → IsValidLog pages log → MayWrite pages log t writes
        → let commit : AnyCommit = record {
          trans = record { 0 = t };
          lsn = record { 0 = end_of (log ++ updates log t writes) };
          writes = writes;
        } in commits_of (log ++ transaction log t writes) ≡ commits_of log ++ commit ∷ [] }
    ensures won { (pages : ℕ) → (log : List AnyRecord) → (t : ℕ) → (writes : List AnyWrite)
        → IsValidLog pages log → MayWrite pages log t writes → (k : AnyKey)
        → won (log ++ transaction log t writes) k ≡ fold (after_write k) (won log k) writes }
    ensures kept { (pages : ℕ) → (log : List AnyRecord) → (t : ℕ) → (writes : List AnyWrite)
        → IsValidLog pages log → MayWrite pages log t writes → (k : AnyKey)
        → kept (log ++ transaction log t writes) k ≡ fold (after_write k) (kept log k) writes }
    ensures now { (pages : ℕ) → (log : List AnyRecord) → (t : ℕ) → (writes : List AnyWrite)
        → IsValidLog pages log → MayWrite pages log t writes → (k : AnyKey)
        → image_now (log ++ transaction log t writes) k
        ≡ fold (after_write k) (image_now log k) writes }
    ensures seen { (pages : ℕ) → (log : List AnyRecord) → (t : ℕ) → (writes : List AnyWrite)
        → IsValidLog pages log → MayWrite pages log t writes → (k : AnyKey)
        → seen_after (commits_of (log ++ transaction log t writes)) k
        ≡ fold (after_write k) (seen_after (commits_of log) k) writes }
{}

/// After any number of the updates of a transaction, a compensation of each of them, the last one
/// first, and the end may follow. The transaction has ended then. The commits, and what each key has
/// in what has committed, in what a takeover keeps and now, are as before it.
pub fn rollback_follows()
    ensures valid { (pages : ℕ) → (log : List AnyRecord) → (t : ℕ) → (writes : List AnyWrite)
        → (n : ℕ) → IsValidLog pages log → MayWrite pages log t writes
        → end_of (log ++ rolled_back log t (take n (updates log t writes))) ≤ 2 ^ 64
        → IsValidLog pages (log ++ rolled_back log t (take n (updates log t writes))) }
    ensures each { (pages : ℕ) → (log : List AnyRecord) → (t : ℕ) → (writes : List AnyWrite)
        → (n : ℕ) → IsValidLog pages log → MayWrite pages log t writes
        → IsTrue (may_follow_all log (rolled_back log t (take n (updates log t writes)))) }
    ensures ended { (pages : ℕ) → (log : List AnyRecord) → (t : ℕ) → (writes : List AnyWrite)
        → (n : ℕ) → IsValidLog pages log → MayWrite pages log t writes
        → IsTrue (has_ended (log ++ rolled_back log t (take n (updates log t writes))) t) }
    ensures unended { (pages : ℕ) → (log : List AnyRecord) → (t : ℕ) → (writes : List AnyWrite)
        → (n : ℕ) → IsValidLog pages log → MayWrite pages log t writes
        → unended (log ++ rolled_back log t (take n (updates log t writes))) ≡ unended log }
    ensures commits { (pages : ℕ) → (log : List AnyRecord) → (t : ℕ) → (writes : List AnyWrite)
        → (n : ℕ) → IsValidLog pages log → MayWrite pages log t writes
        → commits_of (log ++ rolled_back log t (take n (updates log t writes)))
        ≡ commits_of log }
    ensures won { (pages : ℕ) → (log : List AnyRecord) → (t : ℕ) → (writes : List AnyWrite)
        → (n : ℕ) → IsValidLog pages log → MayWrite pages log t writes → (k : AnyKey)
        → won (log ++ rolled_back log t (take n (updates log t writes))) k ≡ won log k }
    ensures kept { (pages : ℕ) → (log : List AnyRecord) → (t : ℕ) → (writes : List AnyWrite)
        → (n : ℕ) → IsValidLog pages log → MayWrite pages log t writes → (k : AnyKey)
        → kept (log ++ rolled_back log t (take n (updates log t writes))) k ≡ kept log k }
    ensures now { (pages : ℕ) → (log : List AnyRecord) → (t : ℕ) → (writes : List AnyWrite)
        → (n : ℕ) → IsValidLog pages log → MayWrite pages log t writes → (k : AnyKey)
        → image_now (log ++ rolled_back log t (take n (updates log t writes))) k
        ≡ image_now log k }
{}
