use crate::fault::Fault;
use crate::fed::{Fed, FeedFault};
use als_epochs::History;
use als_record::{Lsn, TransId};
use als_store::Decision;

/// One step of a run.
#[derive(Clone, Copy, Debug)]
pub enum Step<'a> {
    /// A piece of the primary's log.
    Feed(&'a [u8]),
    /// Drops the partial record, and takes the log again after a refusal.
    Resync,
    /// Ends the lease of a page: what it has redone is lost, and waits on.
    Recall(u32),
    /// Writes a page to its block, if the log is acknowledged past its page_LSN.
    Flush(u32),
    /// Syncs the pages' device.
    SyncPages,
    /// Writes the first block of the log with unwritten bytes.
    LogWrite,
    /// Syncs the log.
    LogSync,
    /// Writes the control block with the log's synced end as its mark.
    MarkWrite,
    /// Syncs the control block.
    ControlSync,
    /// Begins a checkpoint: copies both tables and the end of the log.
    CkptBegin,
    /// Writes the next block of the checkpoint.
    CkptBlock,
    /// Publishes the checkpoint.
    CkptPublish,
    /// Publishes the commits that end at or below what is acknowledged.
    PublishView,
    /// Ends the recovery of a standby that was opened, and publishes the commits of its log.
    Ready,
    /// Goes on with the history of another node.
    Adopt(History),
    /// Seals the log: from then on it takes only its own tail.
    Seal,
    /// Holds the next record of the sealed log's tail.
    UndoOne,
    /// Ends the takeover.
    Finish,
    /// Commits or rolls back a transaction in doubt.
    Resolve(TransId, Decision),
}

/// What a step answers.
#[derive(Clone, Copy, Debug, PartialEq, Eq)]
pub enum Reply {
    Fed(Fed),
    FeedRefused(FeedFault),
    Done,
    /// The offset below which no log byte can be lost.
    Acknowledged(Lsn),
    /// The LSN of the record of the tail that is held now.
    Undone(Lsn),
    /// The LSN of the record that decides a transaction in doubt.
    Resolved(Lsn),
    Refused(Fault),
}
