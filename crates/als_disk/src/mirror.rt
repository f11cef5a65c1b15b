//! What a device over a file keeps in memory.
//!
//! ```text
//! pieces:   | forgotten | forgotten | 128 blocks | no block: zeros | 128 blocks | ..
//! first:                            ^ the first one that is kept
//! trail:    each write and each sync, for clauses alone
//! ```
//!
//! Rules:
//! 1. A piece of 64 KiB is allocated at the first block in it that is not zeros.
//! 2. The pieces that are kept hold the last content written to each block. A read gives it. A read
//!    of a block that is forgotten fails.
//! 3. Where only the newest pieces are kept, a sync forgets those that lie far below the highest
//!    block that was written, and gives their memory back. So each block that was written since the
//!    last sync is kept. A write of a block that is forgotten leaves it so.
//! 4. What a crash may leave is a matter of the trail: no code asks for it, so no content but the
//!    last is kept, and a sync costs nothing here.

ghost use Rattle.std.specs.Prelude.{◌≤◌, ◌*◌, length};
ghost use Rattle.als_disk.specs.Pieces.{HoldNewest};
ghost use Rattle.als_disk.specs.Slot.{HoldsBlocks};
ghost use Rattle.als_disk.specs.Trail.{slot_in};

// What is done to it.
mod holding;

use crate::keeps::Keeps;
use crate::piece::Piece;
use crate::trail::Trail;
use als_past::Past;
use std::alloc::Global;

/// The contents of a file's blocks. Blocks of zeros take no room.
pub(crate) struct Mirror {
    alloc: Global,
    blocks: u64,
    pieces: Vec<Piece>,
    /// The first piece that is kept.
    first: u64,
    /// The piece of the highest block that was written since `keep_newest`.
    highest: u64,
    keeps: Keeps,
    trail: Past<Trail>,
    ghost enough: { blocks ≤ length pieces.items * 128 },
    ghost newest: { HoldNewest first pieces.items trail.value },
    ghost contents: { HoldsBlocks (slot_in trail.value) },
}

// Written out: a derived drop is proved wherever a mirror is dropped, this one only here.
impl Drop for Mirror {
    fn drop(self) {
        let Mirror {
            alloc: _,
            blocks: _,
            pieces,
            first: _,
            highest: _,
            keeps: _,
            trail: _,
        } = self;
        drop(pieces);
    }
}
