use als_record::{Lsn, TransId};

/// What a writer has to know of the log before it writes.
#[derive(Clone, Copy)]
pub struct WritingNow {
    /// The greatest TransID of any record, 0 for none.
    pub greatest: TransId,
    /// The number of unended transactions.
    pub unended: usize,
    /// The bytes of the log device that neither the log nor its reserve takes.
    pub free: u64,
    /// The LSN of the last commit record, 0 for none.
    pub last_commit: Lsn,
}
