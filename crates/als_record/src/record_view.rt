use crate::image_view::ImageView;
use crate::key::Key;
use crate::lsn::Lsn;
use crate::rows_view::RowsView;
use crate::trans_id::TransId;

/// A record of which nothing is copied but numbers: its images and rows lie elsewhere, in bytes or
/// in a record.
#[derive(Clone, Copy)]
pub struct RecordView<'a> {
    /// Where it stands: the byte offset of its first byte.
    pub lsn: Lsn,
    /// The record before it of the same transaction, 0 for the first.
    pub prev: Lsn,
    pub trans: TransId,
    pub body: BodyView<'a>,
}

/// What it says, as `Body`.
#[derive(Clone, Copy)]
pub enum BodyView<'a> {
    Update {
        key: Key,
        before: ImageView<'a>,
        after: ImageView<'a>,
    },
    Compensation {
        undo_next: Lsn,
        key: Key,
        after: ImageView<'a>,
    },
    Commit,
    Rollback,
    End,
    BeginCheckpoint,
    EndCheckpoint {
        rows: RowsView<'a>,
    },
    Prepare,
}
