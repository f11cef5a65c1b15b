use crate::numbers::Numbers;
use als_record::{PageRows, TransactionRows};

/// A fuzzy checkpoint of the standby: what restart needs of the log before its position.
#[derive(Drop)]
pub struct Checkpoint {
    pub numbers: Numbers,
    /// The transactions that had not ended, in rising TransID. The states are 1 active, 2
    /// committed, 3 rolling back, 4 prepared.
    pub transactions: TransactionRows,
    /// The dirty pages, in rising page.
    pub pages: PageRows,
}
