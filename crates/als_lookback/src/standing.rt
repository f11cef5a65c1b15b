ghost use Rattle.std.specs.Prelude.{◌≡◌, IfOk};
ghost use Rattle.als_analysis.specs.Open.{rows_of};

use crate::doubt::Doubt;
use als_analysis::OpenRow;
use als_record::{Lsn, TransId, TransactionRow};
use std::alloc::{AllocError, Global};

/// Where a log ends, and what it leaves open there.
pub struct Standing {
    /// The offset behind its last record.
    pub end: Lsn,
    /// The bytes that a takeover and decisions may append there.
    pub reserve: u64,
    /// The greatest TransID of its records, 0 without one.
    pub greatest: TransId,
    /// A row for each transaction that has not ended, in rising TransID.
    pub rows: Vec<TransactionRow>,
    /// The transactions in doubt, in rising TransID.
    pub doubts: Vec<Doubt>,
}

// Written out: a derived drop is proved wherever it is dropped, this one only here.
impl Drop for Standing {
    fn drop(self) {
        let Standing {
            end: _,
            reserve: _,
            greatest: _,
            rows,
            doubts,
        } = self;
        drop(rows);
        drop(doubts);
    }
}

/// The rows of a transaction table, copied.
pub(crate) fn copied(alloc: Global, table: &[OpenRow]) -> Result<Vec<TransactionRow>, AllocError>
    ensures { IfOk result (λ rows. rows.items ≡ rows_of table.now) }
{
    let rows = table.iter().map(|open| open.row()).collect(alloc)?;
    Ok(rows)
}
