ghost use Rattle.std.specs.Prelude.{◌≡◌, MatchBool};
ghost use Rattle.als_wire.specs.Frames.{is_last, IsPiece, tag_of};

use crate::tag::Tag;
use als_epochs::History;
use als_record::{LogHeader, Lsn};
use bytes::Bytes;

/// What goes over the stream between a shipper and a follower.
#[derive(Drop)]
pub enum Frame {
    /// Bytes of the source's log text that stand at an offset, in this epoch; the last frame of a
    /// session has none.
    Data {
        epoch: u32,
        offset: u64,
        bytes: Bytes,
    },
    /// The follower's acknowledged LSN.
    Acknowledged(Lsn),
    /// Where the follower goes on, the header of its log, and its history.
    Resume {
        from: Lsn,
        header: LogHeader,
        history: History,
    },
    /// The history of the source.
    Epochs(History),
}

/// How many log bytes one frame has at most.
pub const PIECE_LIMIT: usize = 65536;

/// May so many bytes stand at this offset in one frame?
pub(crate) fn is_piece(offset: u64, len: usize) -> bool
    ensures { MatchBool result (IsPiece offset len) (IsPiece offset len → ⊥) }
{
    len <= PIECE_LIMIT && len as u64 <= u64::MAX - offset
}

impl Frame {
    /// What the frame begins with.
    pub fn tag(&self) -> Tag
        ensures { result ≡ tag_of self.now }
    {
        match self {
            Frame::Data {
                epoch: _,
                offset: _,
                bytes: _,
            } => Tag::Data,
            Frame::Acknowledged(_) => Tag::Acknowledged,
            Frame::Resume {
                from: _,
                header: _,
                history: _,
            } => Tag::Resume,
            Frame::Epochs(_) => Tag::Epochs,
        }
    }

    /// Is it a Data frame with no bytes, which ends a session?
    pub fn is_last(&self) -> bool
        ensures { result ≡ is_last self.now }
    {
        match self {
            Frame::Data {
                epoch: _,
                offset: _,
                bytes,
            } => bytes.is_empty(),
            _ => false,
        }
    }
}
