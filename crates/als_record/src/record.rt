use crate::image::Image;
use crate::key::Key;
use crate::lsn::Lsn;
use crate::rows::{PageRows, TransactionRows};
use crate::trans_id::TransId;

/// A log record, as ARIES has it.
#[derive(Drop)]
pub struct Record {
    /// Where it stands: the byte offset of its first byte.
    pub lsn: Lsn,
    /// The record before it of the same transaction, 0 for the first.
    pub prev: Lsn,
    pub trans: TransId,
    pub body: Body,
}

/// What a record says.
#[derive(Drop)]
pub enum Body {
    /// A key gets another image.
    Update {
        key: Key,
        before: Image,
        after: Image,
    },
    /// An update is undone (a CLR). It is redone and never undone itself; undo goes on at
    /// `undo_next`.
    Compensation {
        undo_next: Lsn,
        key: Key,
        after: Image,
    },
    Commit,
    /// A rollback of the whole transaction begins.
    Rollback,
    End,
    /// A primary's fuzzy checkpoint begins.
    BeginCheckpoint,
    /// A primary's fuzzy checkpoint ends, with its tables.
    EndCheckpoint {
        transactions: TransactionRows,
        pages: PageRows,
    },
    /// The transaction is prepared: its coordinator decides whether it commits or rolls back.
    Prepare,
}
