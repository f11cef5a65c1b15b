ghost use Rattle.std.specs.Prelude.{◌≡◌, ◌≤◌, ℕ, true, List, length, map, IfOk};
ghost use Rattle.std.specs.List.{AllByRecursion};
ghost use Rattle.als_record.specs.declared.record.Record.{Record as AnyRecord};
ghost use Rattle.als_record.specs.Spelling.{IsLoggedTransaction};
ghost use Rattle.als_record.specs.Table.{table_of};
ghost use Rattle.als_record.specs.Validity.{is_valid};
ghost use Rattle.als_analysis.specs.Open.{rows_of};
ghost use Rattle.als_ckpt_codec.specs.Checkpoint.{are_transactions};
ghost use Rattle.als_tables.specs.Copies.{state_number, logged_row, logged_rows};

use als_analysis::OpenRow;
use als_record::{LoggedTransaction, TransactionRow, TransactionRows, TransactionState};
use std::alloc::{AllocError, Global};

/// The number of a state.
fn number_of(state: TransactionState) -> u8
    ensures { result ≡ state_number state }
{
    match state {
        TransactionState::Active => 1,
        TransactionState::Committed => 2,
        TransactionState::RollingBack => 3,
        TransactionState::Prepared => 4,
    }
}

/// A row, as a checkpoint has it.
fn logged(row: TransactionRow) -> LoggedTransaction
    ensures value { result ≡ logged_row row }
    ensures fits { IsLoggedTransaction result }
{
    LoggedTransaction {
        trans: row.trans,
        state: number_of(row.state),
        last: row.last,
        undo_next: row.undo_next,
    }
}

/// The rows of at most 256 transactions, as a checkpoint has them. An `Err`: an allocation failed.
pub fn logged_rows(alloc: Global, rows: &[OpenRow]) -> Result<TransactionRows, AllocError>
    requires few { length rows.now ≤ 256 }
    ensures value { IfOk result (λ copies. copies ≡ logged_rows (rows_of rows.now)) }
    ensures fits { IfOk result (AllByRecursion IsLoggedTransaction) }
{
    let mut copies = TransactionRows::with_capacity(alloc, rows.len())?;
    for at in 0..rows.len() {
        copies.push(logged(rows[at].row()))?;
    }
    Ok(copies)
}

/// A valid log has at most 256 unended transactions, in rising TransID.
pub fn fits_checkpoint()
    ensures few { (log : List AnyRecord) → is_valid log ≡ true → length (table_of log) ≤ 256 }
    ensures rising { (log : List AnyRecord) → is_valid log ≡ true
        → are_transactions 0 (logged_rows (table_of log)) ≡ true }
{}
