ghost use Rattle.std.specs.Prelude.{◌≡◌, ℕ, ◌==◌, false, List, [], ◌∷◌, ◌++◌, IsTrue};
ghost use Rattle.als_record.specs.declared.key.Key.{Key as AnyKey};
ghost use Rattle.als_record.specs.declared.record.Record.{Record as AnyRecord};
ghost use Rattle.als_record.specs.Transactions.{to_undo, is_committed, is_unended};
ghost use Rattle.als_record.specs.Images.{is_update_at};
ghost use Rattle.als_record.specs.Validity.{is_valid};
ghost use Rattle.als_record.specs.Commits.{Write as AnyWrite};
ghost use Rattle.als_writing.specs.Writing.{Move, Writes, Undoes, Commits, Ends, body_for, record_for};
ghost use Rattle.als_writing.specs.Writing.{is_active, is_free};

/// One record of a transaction may follow, whatever other transactions wrote between its records. An
/// active transaction may write a key that no other open one holds, undo the last of its updates,
/// commit, or end where nothing is left to undo. A committed one may end.
pub fn moves_follow()
    ensures write { (log : List AnyRecord) → (t : ℕ) → (w : AnyWrite) → IsTrue (is_valid log)
        → IsTrue (is_active log t) → IsTrue (is_free log t w.key)
        → IsTrue (is_valid (log ++ record_for log t (Writes w) ∷ [])) }
    ensures undo { (log : List AnyRecord) → (t : ℕ) → (u : AnyRecord) → (rest : List AnyRecord)
        → IsTrue (is_valid log) → IsTrue (is_active log t) → to_undo log t ≡ u ∷ rest
        → IsTrue (is_valid (log ++ record_for log t (Undoes u) ∷ [])) }
    ensures commit { (log : List AnyRecord) → (t : ℕ) → IsTrue (is_valid log)
        → IsTrue (is_active log t)
        → IsTrue (is_valid (log ++ record_for log t Commits ∷ [])) }
    ensures end_undone { (log : List AnyRecord) → (t : ℕ) → IsTrue (is_valid log)
        → IsTrue (is_active log t) → to_undo log t ≡ []
        → IsTrue (is_valid (log ++ record_for log t Ends ∷ [])) }
    ensures end_committed { (log : List AnyRecord) → (t : ℕ) → IsTrue (is_valid log)
        → IsTrue (is_unended log t) → IsTrue (is_committed log t)
        → IsTrue (is_valid (log ++ record_for log t Ends ∷ [])) }
{}

/// A record of one transaction leaves another one that is unended and active as it is, and each key
/// free for it but the one that the record updates.
pub fn moves_leave_others()
    ensures active { (log : List AnyRecord) → (s t : ℕ) → (move : Move) → IsTrue (is_valid log)
        → (t == s) ≡ false → IsTrue (is_unended log s) → IsTrue (is_active log s)
        → IsTrue (is_active (log ++ record_for log t move ∷ []) s) }
    ensures free { (log : List AnyRecord) → (s t : ℕ) → (move : Move) → (key : AnyKey)
        → is_update_at key (body_for log move) ≡ false → IsTrue (is_free log s key)
        → IsTrue (is_free (log ++ record_for log t move ∷ []) s key) }
{}
