ghost use Rattle.std.specs.Prelude.{◌≡◌, ℕ, ◌==◌, ◌+◌, ◌≤◌, List, [], ◌∷◌, ◌++◌, filter, IsTrue, not};
ghost use Rattle.als_record.specs.declared.key.Key.{Key as AnyKey};
ghost use Rattle.als_record.specs.declared.record.Body.{Body as AnyBody};
ghost use Rattle.als_record.specs.declared.record.Body.TheVariants.{Commit, Rollback};
ghost use Rattle.als_record.specs.declared.record.Record.{Record as AnyRecord};
ghost use Rattle.als_record.specs.Transactions.{is_decision, is_in_doubt, in_doubt};
ghost use Rattle.als_record.specs.Images.{kept, kept_without};
ghost use Rattle.als_record.specs.Spelling.{record_len};
ghost use Rattle.als_record.specs.Validity.{is_valid};
ghost use Rattle.als_record.specs.Tail.{decision, reserve_of};

/// A transaction in doubt can always be decided: its commit or rollback record may follow the log,
/// and the room for it, and for what a takeover then appends, was in reserve. The others stay in
/// doubt.
pub fn decision_follows()
    ensures valid { (log : List AnyRecord) → (t : ℕ) → (body : AnyBody) → IsTrue (is_valid log)
        → IsTrue (is_in_doubt log t) → IsTrue (is_decision body)
        → IsTrue (is_valid (log ++ decision log t body ∷ [])) }
    ensures reserved { (log : List AnyRecord) → (t : ℕ) → (body : AnyBody)
        → IsTrue (is_in_doubt log t) → IsTrue (is_decision body)
        → record_len (decision log t body) + reserve_of (log ++ decision log t body ∷ [])
        ≤ reserve_of log }
    ensures others { (log : List AnyRecord) → (t : ℕ) → (body : AnyBody)
        → IsTrue (is_in_doubt log t) → IsTrue (is_decision body)
        → in_doubt (log ++ decision log t body ∷ [])
        ≡ filter (λ x. not (x == t)) (in_doubt log) }
{}

/// A commit of a transaction in doubt changes nothing of what a takeover keeps, and a rollback takes
/// its updates out of it.
pub fn decision_is_kept()
    ensures commit { (log : List AnyRecord) → (t : ℕ) → (k : AnyKey) → IsTrue (is_in_doubt log t)
        → kept (log ++ decision log t Commit ∷ []) k ≡ kept log k }
    ensures rollback { (log : List AnyRecord) → (t : ℕ) → (k : AnyKey) → IsTrue (is_in_doubt log t)
        → kept (log ++ decision log t Rollback ∷ []) k ≡ kept_without log t k }
{}
