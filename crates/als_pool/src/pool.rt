//! The buffer pool: frames, the dirty page table, and the changes that wait for redo.
//!
//! ```text
//! a page's changes in the log:   in the stored image | in the frame | waiting in the queue
//!                                synced page_LSN       page_LSN       end of the log
//! ```
//!
//! Rules:
//! 1. A change of the log is routed: it waits behind the others of its page, which gets a row in
//!    the dirty page table if it has none.
//! 2. Redo is done in leases: a page is lent with the first changes that wait for it, at most 64,
//!    and becomes what the lease has made of it when it is given back. Until then the page keeps its
//!    frame and its content, and the changes wait. So a page is history repeated up to its page_LSN
//!    at all times, and a lease that is lost costs a `recall` and no change.
//! 3. Write-ahead logging: a page is written only where its page_LSN is below the acknowledged LSN.
//! 4. A row moves at a sync, not at a write. RecLSN is the first change that the synced image
//!    lacks, and a crash may leave that image.
//! 5. A frame is replaced only where its page is the image last synced and is not lent.
//! 6. A lease is taken back only while it is out: by its number, the page that was lent and the
//!    changes that were lent with it. A page is lent by one lease at a time, and is not written
//!    while it is lent.
//!
//! Each call keeps "this is the pool of that log" for every log (`IsPoolOf`). No copy of the log is
//! carried. After a restart the changes of a page that was not read yet wait from its row in the
//! checkpoint on, or from the checkpoint's position: perhaps more than its image lacks.

// What a pool is asked.
mod asking;
// A new pool, and the pool of a device that was laid out before.
mod opening;
// Changes on their way behind those that wait.
mod routing;
// Pages lent, given back and recalled.
mod lending;
// Pages on their way to the device.
mod storing;

use crate::queues::Queues;
use als_dirty::DirtyTable;
use als_disk::BlockDisk;
use als_frames::Frames;
use als_lease::{LeaseRoom, Numbers};
use als_record::Lsn;
use std::alloc::Global;
use std::marker::Model;

/// The pages of a database: on a block device, some of them in frames in memory, with the changes
/// that wait for each and the dirty page table.
pub struct Pool<D: BlockDisk> {
    frames: Frames<D>,
    dirty: DirtyTable,
    queues: Queues,
    // Of a page that was not read since a restart, the first LSN from which on its changes wait.
    unread: Vec<Option<Lsn>>,
    // The numbers of leases.
    numbers: Numbers,
    // Memory of leases that have ended, for the next ones.
    rooms: Vec<LeaseRoom>,
    alloc: Global,
}

// Written out: a derived drop is proved part by part wherever a pool is dropped, this one only
// here.
impl<D: BlockDisk + Drop> Drop for Pool<D> {
    fn drop(self) {
        let Pool {
            frames,
            dirty,
            queues,
            unread,
            numbers: _,
            rooms,
            alloc: _,
        } = self;
        drop(frames);
        drop(dirty);
        drop(queues);
        drop(unread);
        drop(rooms);
    }
}

impl<D: BlockDisk> Model for Pool<D> {
    ghost use Rattle.std.specs.Vec.{vec_len};
    ghost use Rattle.als_pool.specs.Pooled.{Held, IsPooled};

    ghost Value = { Held };

    ghost view = { λ p. record {
      pool = record {
        frames = p.frames.paged;
        dirty = p.dirty;
        waits = p.queues.waits;
        unread = p.unread.items;
        next = p.numbers;
      };
      room = record {
        frames = p.frames.spare;
        places = p.queues.places;
        leases = vec_len p.rooms;
      };
    } };

    ghost invariant = { λ p. IsPooled (record {
      frames = p.frames.paged;
      dirty = p.dirty;
      waits = p.queues.waits;
      unread = p.unread.items;
      next = p.numbers;
    }) };
}
