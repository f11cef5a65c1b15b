use als_record::{Lsn, TransId};

/// A transaction that is in the log.
#[derive(Clone, Copy, Debug, PartialEq, Eq)]
pub struct Written {
    pub trans: TransId,
    /// The LSN of its commit record, of its prepare record, or of the record that decides it.
    pub lsn: Lsn,
    /// Where its last record ends. It is durable once the log is acknowledged to here.
    pub end: Lsn,
}
