use crate::fault::Fault;
use als_record::Lsn;

/// What the engine is doing.
#[derive(Clone, Copy, Debug, PartialEq, Eq)]
pub enum State {
    /// It was opened, and is not ready yet.
    Recovering,
    /// It takes the primary's log.
    Following,
    /// A record at this LSN was refused, and so is all that is fed until a resync.
    Refusing { lsn: Lsn, fault: Fault },
    /// The log was sealed: what was not committed is undone.
    Sealed,
    /// The takeover is done.
    Primary,
    /// A write or a sync failed: each event is refused, and the queries go on.
    Stopped,
}

/// What the engine tells of itself.
#[derive(Clone, Copy, Debug, PartialEq, Eq)]
pub struct Status {
    pub state: State,
    /// The offset after the last held record.
    pub end: Lsn,
    /// Bytes of a record that is not whole yet.
    pub partial: usize,
    /// The offset below which no log byte can be lost.
    pub acknowledged: Lsn,
    /// Changes that wait for redo.
    pub pending: usize,
    /// Leases that are out.
    pub leases: usize,
}
