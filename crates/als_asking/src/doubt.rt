use als_record::{Lsn, TransId};

/// A transaction in doubt: prepared, and not decided.
#[derive(Clone, Copy, Debug, PartialEq, Eq)]
pub struct Doubt {
    pub trans: TransId,
    /// The LSN of its last record.
    pub lsn: Lsn,
}
