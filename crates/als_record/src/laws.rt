ghost use Rattle.std.specs.Prelude.{◌≡◌, ℕ, ◌<◌, ◌^◌, ◌++◌, List};
ghost use Rattle.als_record.specs.declared.record.Record.{Record as AnyRecord};
ghost use Rattle.als_record.specs.Spelling.{spelling, IsRecord};
ghost use Rattle.als_record.specs.LogText.{log_text, IsLog};

/// A law: no spelling begins another one at the same LSN. So bytes are at most one record, whatever
/// follows them.
pub fn one_spelling()
    ensures { (pages : ℕ) (a b : AnyRecord) (x y : List ℕ) → IsRecord pages a → IsRecord pages b
        → a.lsn.0 ≡ b.lsn.0
        → spelling a ++ x ≡ spelling b ++ y → (a ≡ b) × (x ≡ y) }
{}

/// A law: two logs with the same text are the same log, of databases of the same size.
pub fn one_log()
    ensures { (m n : ℕ) (a b : List AnyRecord) → m < 2 ^ 32 → n < 2 ^ 32 → IsLog m a → IsLog n b
        → log_text m a ≡ log_text n b
        → (m ≡ n) × (a ≡ b) }
{}
