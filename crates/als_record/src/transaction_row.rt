use crate::lsn::Lsn;
use crate::trans_id::TransId;
use crate::transaction_state::TransactionState;

/// A row of the transaction table, as ARIES has it: one transaction that has not ended.
#[derive(Clone, Copy, Debug, PartialEq, Eq)]
pub struct TransactionRow {
    pub trans: TransId,
    pub state: TransactionState,
    /// LastLSN: its last record.
    pub last: Lsn,
    /// UndoNxtLSN: where its undo goes on, 0 where there is nothing to undo. After an update that
    /// update, after a compensation the UndoNxtLSN that the compensation carries.
    pub undo_next: Lsn,
}
