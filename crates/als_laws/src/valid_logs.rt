ghost use Rattle.std.specs.Prelude.{◌≡◌, ℕ, List, map, IsTrue};
ghost use Rattle.std.specs.List.{list_any};
ghost use Rattle.als_record.specs.declared.key.Key.{Key as AnyKey};
ghost use Rattle.als_record.specs.declared.record.Record.{Record as AnyRecord};
ghost use Rattle.als_record.specs.Transactions.{to_undo, undo_next_of, is_open};
ghost use Rattle.als_record.specs.Images.{is_update_at};
ghost use Rattle.als_record.specs.Table.{table_of};
ghost use Rattle.als_record.specs.Validity.{is_valid};
ghost use Rattle.als_record.specs.Orders.{Rising};
ghost use Rattle.als_record.specs.UndoChain.{undo_chain, backwards};

/// The rows of a valid log's transaction table stand in rising TransID.
pub fn rows_rise()
    ensures { (log : List AnyRecord) → IsTrue (is_valid log)
        → Rising (map (λ row. row.trans.0) (table_of log)) }
{}

/// In a valid log two open transactions never have surviving updates of the same key.
pub fn one_transaction_holds_a_key()
    ensures { (log : List AnyRecord) → IsTrue (is_valid log) → (k : AnyKey) → (s t : ℕ)
        → IsTrue (is_open log s) → IsTrue (is_open log t)
        → IsTrue (list_any (λ u. is_update_at k u.body) (to_undo log s))
        → IsTrue (list_any (λ u. is_update_at k u.body) (to_undo log t)) → s ≡ t }
{}

/// From a transaction's UndoNxtLSN, by the PrevLSNs of updates and the UndoNxtLSNs of
/// compensations, undo meets exactly its surviving updates, the newest first (ARIES: compensation
/// records chain past what is undone).
pub fn undo_chain_meets_survivors()
    ensures { (log : List AnyRecord) → (t : ℕ) → IsTrue (is_valid log)
        → undo_chain (undo_next_of log t) (backwards log t) ≡ to_undo log t }
{}
