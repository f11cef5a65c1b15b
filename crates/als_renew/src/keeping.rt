ghost use Rattle.std.specs.Prelude.{◌≡◌, ℕ, List, ◌++◌, IsTrue};
ghost use Rattle.als_record.specs.declared.record.Record.{Record as AnyRecord};
ghost use Rattle.als_record.specs.Transactions.{is_in_doubt};
ghost use Rattle.als_record.specs.Validity.{is_valid};
ghost use Rattle.als_record.specs.Commits.{writes_of};

/// A law: while a transaction is in doubt, it has written what it wrote before it prepared, whatever comes
/// behind. So a decision in a log that goes on from another one commits what was prepared in that one.
pub fn a_doubt_keeps_its_writes()
    ensures { (log more : List AnyRecord) → (t : ℕ) → IsTrue (is_valid (log ++ more))
        → IsTrue (is_in_doubt log t) → IsTrue (is_in_doubt (log ++ more) t)
        → writes_of (log ++ more) t ≡ writes_of log t }
{}
