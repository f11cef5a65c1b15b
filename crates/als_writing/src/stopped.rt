ghost use Rattle.std.specs.Prelude.{◌≡◌, ℕ, List, [], ◌∷◌, ◌++◌, take, IsTrue};
ghost use Rattle.als_record.specs.declared.key.Key.{Key as AnyKey};
ghost use Rattle.als_record.specs.declared.record.Record.{Record as AnyRecord};
ghost use Rattle.als_record.specs.Transactions.{is_some_left, unended};
ghost use Rattle.als_record.specs.Images.{image_now};
ghost use Rattle.als_record.specs.Validity.{IsValidLog};
ghost use Rattle.als_record.specs.Commits.{Write as AnyWrite, commits_of};
ghost use Rattle.als_record.specs.Tail.{tail_of};
ghost use Rattle.als_writing.specs.Writing.{Commits, Ends, record_for, updates, transaction};
ghost use Rattle.als_writing.specs.Writing.{rollback, MayWrite};

/// What is owed after a stop in the middle of a transaction is the tail of the log. Where nothing
/// was owed before the transaction, the tail of a front without the commit is exactly the rollback
/// of its updates; behind it the commits, what each key has and who is unended are as before the
/// transaction. The tail of a front with the commit is the end alone. A whole transaction leaves
/// nothing owed.
pub fn tail_ends_a_transaction()
    ensures undone { (pages : ℕ) → (log : List AnyRecord) → (t : ℕ) → (writes : List AnyWrite)
        → (n : ℕ) → IsValidLog pages log → tail_of log ≡ [] → MayWrite pages log t writes
        → IsTrue (is_some_left (take n (updates log t writes)))
        → let us = take n (updates log t writes) in
        tail_of (log ++ us) ≡ rollback (log ++ us) t us }
    ensures commits { (pages : ℕ) → (log : List AnyRecord) → (t : ℕ) → (writes : List AnyWrite)
        → (n : ℕ) → IsValidLog pages log → tail_of log ≡ [] → MayWrite pages log t writes
        → let front = log ++ take n (updates log t writes) in
        commits_of (front ++ tail_of front) ≡ commits_of log }
    ensures unended { (pages : ℕ) → (log : List AnyRecord) → (t : ℕ) → (writes : List AnyWrite)
        → (n : ℕ) → IsValidLog pages log → tail_of log ≡ [] → MayWrite pages log t writes
        → let front = log ++ take n (updates log t writes) in
        unended (front ++ tail_of front) ≡ unended log }
    ensures now { (pages : ℕ) → (log : List AnyRecord) → (t : ℕ) → (writes : List AnyWrite)
        → (n : ℕ) → IsValidLog pages log → tail_of log ≡ [] → MayWrite pages log t writes
        → (k : AnyKey) → let front = log ++ take n (updates log t writes) in
        image_now (front ++ tail_of front) k ≡ image_now log k }
    ensures ended { (pages : ℕ) → (log : List AnyRecord) → (t : ℕ) → (w : AnyWrite)
        → (rest : List AnyWrite) → IsValidLog pages log → tail_of log ≡ []
        → MayWrite pages log t (w ∷ rest)
        → let updated = log ++ updates log t (w ∷ rest) in
        let committed = updated ++ record_for updated t Commits ∷ [] in
        tail_of committed ≡ record_for committed t Ends ∷ [] }
    ensures whole { (pages : ℕ) → (log : List AnyRecord) → (t : ℕ) → (w : AnyWrite)
        → (rest : List AnyWrite) → IsValidLog pages log → tail_of log ≡ []
        → MayWrite pages log t (w ∷ rest)
        → tail_of (log ++ transaction log t (w ∷ rest)) ≡ [] }
{}
