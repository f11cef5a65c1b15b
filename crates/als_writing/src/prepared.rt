ghost use Rattle.std.specs.Prelude.{◌≡◌, ℕ, ◌+◌, ◌≤◌, ◌^◌, List, [], ◌∷◌, ◌++◌, fold, take, IsTrue};
ghost use Rattle.als_record.specs.declared.key.Key.{Key as AnyKey};
ghost use Rattle.als_record.specs.declared.record.Record.{Record as AnyRecord};
ghost use Rattle.als_record.specs.LogText.{end_of};
ghost use Rattle.als_record.specs.Transactions.{records_of, unended, in_doubt, is_in_doubt};
ghost use Rattle.als_record.specs.Images.{kept};
ghost use Rattle.als_record.specs.Validity.{may_follow_all, is_valid, IsValidLog};
ghost use Rattle.als_record.specs.Commits.{Write as AnyWrite, commits_of, after_write, writes_of};
ghost use Rattle.als_record.specs.Tail.{tail_of, reserve_of};
ghost use Rattle.als_writing.specs.Writing.{prepared, room_for, MayWrite};

/// A primary may append a transaction that prepares: an update for each write and the prepare
/// record. The transaction is in doubt then, and it alone besides those that were. No commit is
/// added, and a takeover keeps its writes. Nothing is owed but what was before.
pub fn prepared_follows()
    ensures valid { (pages : ℕ) → (log : List AnyRecord) → (t : ℕ) → (writes : List AnyWrite)
        → IsValidLog pages log → MayWrite pages log t writes
        → end_of (log ++ prepared log t writes) ≤ 2 ^ 64
        → IsValidLog pages (log ++ prepared log t writes) }
    ensures each { (pages : ℕ) → (log : List AnyRecord) → (t : ℕ) → (writes : List AnyWrite)
        → IsValidLog pages log → MayWrite pages log t writes
        → IsTrue (may_follow_all log (prepared log t writes)) }
    ensures unended { (pages : ℕ) → (log : List AnyRecord) → (t : ℕ) → (writes : List AnyWrite)
        → IsValidLog pages log → MayWrite pages log t writes
        → unended (log ++ prepared log t writes) ≡ unended log ++ t ∷ [] }
    ensures doubted { (pages : ℕ) → (log : List AnyRecord) → (t : ℕ) → (writes : List AnyWrite)
        → IsValidLog pages log → MayWrite pages log t writes
        → in_doubt (log ++ prepared log t writes) ≡ in_doubt log ++ t ∷ [] }
    ensures commits { (pages : ℕ) → (log : List AnyRecord) → (t : ℕ) → (writes : List AnyWrite)
        → IsValidLog pages log → MayWrite pages log t writes
        → commits_of (log ++ prepared log t writes) ≡ commits_of log }
    ensures kept { (pages : ℕ) → (log : List AnyRecord) → (t : ℕ) → (writes : List AnyWrite)
        → IsValidLog pages log → MayWrite pages log t writes → (k : AnyKey)
        → kept (log ++ prepared log t writes) k ≡ fold (after_write k) (kept log k) writes }
    ensures owed { (pages : ℕ) → (log : List AnyRecord) → (t : ℕ) → (writes : List AnyWrite)
        → IsValidLog pages log → MayWrite pages log t writes → tail_of log ≡ []
        → tail_of (log ++ prepared log t writes) ≡ [] }
{}

/// A transaction that prepares takes 56 bytes more than one that commits: its prepare record, and
/// the reserve for a rollback record.
pub fn prepared_fits()
    ensures fronts { (pages : ℕ) → (log : List AnyRecord) → (t : ℕ) → (w : AnyWrite)
        → (rest : List AnyWrite) → (n : ℕ) → IsValidLog pages log
        → MayWrite pages log t (w ∷ rest)
        → end_of (log ++ take n (prepared log t (w ∷ rest)))
        + reserve_of (log ++ take n (prepared log t (w ∷ rest)))
        ≤ end_of log + reserve_of log + room_for log t (w ∷ rest) + 56 }
    ensures met { (pages : ℕ) → (log : List AnyRecord) → (t : ℕ) → (w : AnyWrite)
        → (rest : List AnyWrite) → IsValidLog pages log → MayWrite pages log t (w ∷ rest)
        → end_of (log ++ prepared log t (w ∷ rest)) + reserve_of (log ++ prepared log t (w ∷ rest))
        ≡ end_of log + reserve_of log + room_for log t (w ∷ rest) + 56 }
{}

/// A transaction that prepared and is still in doubt has written what it prepared, whatever other
/// transactions wrote behind it. It has no record behind its prepare record. So a commit that decides
/// it is a commit with exactly these writes.
pub fn a_prepared_transaction_keeps_its_writes()
    ensures writes { (pages : ℕ) → (log front more : List AnyRecord) → (t : ℕ)
        → (writes : List AnyWrite) → log ≡ (front ++ prepared front t writes) ++ more
        → IsTrue (is_valid log) → MayWrite pages front t writes → IsTrue (is_in_doubt log t)
        → writes_of log t ≡ writes }
    ensures records { (pages : ℕ) → (log front more : List AnyRecord) → (t : ℕ)
        → (writes : List AnyWrite) → log ≡ (front ++ prepared front t writes) ++ more
        → IsTrue (is_valid log) → MayWrite pages front t writes → IsTrue (is_in_doubt log t)
        → records_of more t ≡ [] }
{}
