use als_record::{Lsn, TransId};

/// What a checkpoint says of the log that it was made of, beside its two tables.
#[derive(Clone, Copy, Debug, PartialEq, Eq)]
pub struct Numbers {
    /// Its position: the end of the log at the checkpoint.
    pub position: Lsn,
    /// The greatest TransID of the log, 0 for none.
    pub greatest: TransId,
    /// The begin_chkpt that no end_chkpt has followed, 0 for none.
    pub open_checkpoint: Lsn,
    /// How many commit records the log has.
    pub commits: u64,
    /// The last of them, 0 for none.
    pub last_commit: Lsn,
}
