use als_record::{TransactionRow, TransactionState};
use std::fmt;

/// A row of the transaction table as `show table` has it.
#[derive(Drop)]
pub struct ShownRow<'a>(pub &'a TransactionRow);

impl fmt::Display for ShownRow<'_> {
    fn fmt<W: fmt::Write>(&self, f: &mut fmt::Formatter<W>) -> fmt::Result {
        let row = self.0;
        let (trans, last, undo) = (row.trans.0, row.last.0, row.undo_next.0);
        write!(
            f,
            "trans {trans} {} last={last} undo={undo}",
            state(row.state)
        )
    }
}

/// The word for what a transaction is doing.
fn state(state: TransactionState) -> &'static str {
    match state {
        TransactionState::Active => "active",
        TransactionState::Committed => "committed",
        TransactionState::RollingBack => "rollback",
        TransactionState::Prepared => "prepared",
    }
}
