// A new pool, and the pool of a device that was laid out before.
ghost use Rattle.std.specs.Prelude.{◌≡◌, ◌<◌, ◌≤◌, ◌+◌, ℕ, List, [], replicate, false, IfOk, IfErr};
ghost use Rattle.std.specs.List.{fold};
ghost use Rattle.als_record.specs.declared.record.Record.{Record as AnyRecord};
ghost use Rattle.als_disk.specs.Slot.{only};
ghost use Rattle.als_disk.specs.Store.{zeros};
ghost use Rattle.als_frames.specs.Frames.{without_frames};
ghost use Rattle.als_pool.specs.Pooled.{new_pool};
ghost use Rattle.als_pool.specs.Bounds.{EndsBelow};
ghost use Rattle.als_pool.specs.Outcomes.{RefusesFormat};
ghost use Rattle.als_pool.specs.Images.{IsPoolOf, QueuesOf};
ghost use Rattle.als_pool.specs.Restart.{started_at, with_row, IsOpened, HasRowsFrom};
ghost use Rattle.als_pool.specs.Restart.{HoldsImagesFrom, HoldsImagesOf};

use super::Pool;
use crate::fault::Fault;
use crate::new_pool::NewPool;
use crate::queues::Queues;
use crate::starts::Starts;
use crate::unformatted::Unformatted;
use als_disk::BlockDisk;
use als_frames::Frames;
use als_lease::Numbers;
use als_record::{LoggedPage, Lsn};
use std::alloc::{AllocError, Global};

impl<D: BlockDisk> Pool<D> {
    /// Lays out a device as a database of so many empty pages, at most 4,096, of which at most
    /// `frames` can be in memory at once: writes the block of each page, and syncs. The device
    /// comes back with a fault.
    ///
    /// `Memory`: an allocation failed, and the device was not called. `Device`: it failed.
    pub fn format(
        alloc: Global,
        disk: D,
        pages: u32,
        frames: usize,
    ) -> Result<Pool<D>, Unformatted<D>>
        requires room { pages ≤ D.block_count disk }
        requires limit { pages ≤ 4096 }
        ensures ok { IfOk result (λ p. p.pool
            ≡ new_pool (without_frames pages frames (λ _. only zeros)
            (D.block_count disk) (D.failures disk) (D.attempts disk + pages + 1)) pages 1) }
        ensures keeps { IfOk result (λ p. (below : ℕ) → IsPoolOf [] below p.pool) }
        ensures ends { IfOk result (λ p. (end : ℕ) → 0 < end → EndsBelow end p.pool) }
        ensures err { IfErr result (λ u. RefusesFormat u.fault (D.failures disk)
            (D.failures u.disk)) }
        ensures untouched { IfErr result (λ u. u.fault ≡ Fault.Memory → u.disk ≡ disk) }
        ensures blocks { IfErr result (λ u. D.block_count u.disk ≡ D.block_count disk) }
    {
        let Ok(new) = NewPool::new(alloc, pages) else {
            let fault = Fault::Memory;
            return Err(Unformatted { disk, fault });
        };
        match Pool::lay_out(disk, new, frames) {
            Ok(pool) => Ok(pool),
            Err(disk) => {
                let fault = Fault::Device;
                Err(Unformatted { disk, fault })
            }
        }
    }

    /// Lays out a device as a database of empty pages, whose memory was taken before, of which at
    /// most `frames` can be in memory at once: writes the block of each page, and syncs. The device
    /// comes back where it failed.
    pub fn lay_out(disk: D, new: NewPool, frames: usize) -> Result<Pool<D>, D>
        requires { new.pages ≤ D.block_count disk }
        ensures ok { IfOk result (λ p. p.pool
            ≡ new_pool (without_frames new.pages frames (λ _. only zeros)
            (D.block_count disk) (D.failures disk) (D.attempts disk + new.pages + 1)) new.pages
            new.first) }
        ensures keeps { IfOk result (λ p. (below : ℕ) → IsPoolOf [] below p.pool) }
        ensures ends { IfOk result (λ p. (end : ℕ) → 0 < end → EndsBelow end p.pool) }
        ensures err { IfErr result (λ d. D.failures disk < D.failures d) }
        ensures blocks { IfErr result (λ d. D.block_count d ≡ D.block_count disk) }
    {
        let NewPool {
            alloc,
            pages,
            dirty,
            queues,
            unread,
            first,
        } = new;
        match Frames::format(alloc, disk, pages, frames) {
            Ok(frames) => Ok(Pool {
                frames,
                dirty,
                queues,
                unread,
                numbers: Numbers::from(first),
                rooms: Vec::new(alloc),
                alloc,
            }),
            Err(refused) => Err(refused.disk),
        }
    }

    /// The pages of a database that was laid out before, as a restart finds them: none was read, at
    /// most `frames` can be in memory at once, and nothing waits yet. The changes of a page wait
    /// from its row in the published checkpoint on, or else from the checkpoint's position on;
    /// where none is published the position is that of the first record. The device is not called.
    ///
    /// An `Err`, the device as it was: an allocation failed.
    pub fn open(
        alloc: Global,
        disk: D,
        pages: u32,
        frames: usize,
        position: Lsn,
        rows: &[LoggedPage],
    ) -> Result<Pool<D>, D>
        requires room { pages ≤ D.block_count disk }
        requires limit { pages ≤ 4096 }
        ensures ok { IfOk result (λ p. IsOpened
            (without_frames pages frames (D.slot disk) (D.block_count disk) (D.failures disk)
            (D.attempts disk))
            position rows.now p.pool) }
        ensures err { IfErr result (λ d. d ≡ disk) }
        // No record was read yet; and a page's row is the checkpoint's.
        ensures reads { IfOk result (λ p. QueuesOf [] p.pool) }
        ensures given { IfOk result (λ p. HasRowsFrom position rows.now p.pool) }
        ensures ends { IfOk result (λ p. (end : ℕ) → 0 < end → EndsBelow end p.pool) }
        // For every log of whose pages each block has an image which lacks nothing below where its
        // changes wait.
        ensures holds { IfOk result (λ p. (log : List AnyRecord) (below : ℕ)
            → HoldsImagesFrom log below pages position rows.now (D.slot disk)
            → HoldsImagesOf log below p.pool) }
    {
        let Ok((starts, queues)) = restarted(alloc, pages, position, rows) else {
            return Err(disk);
        };
        let frames = Frames::open(alloc, disk, pages, frames);
        let Starts { dirty, unread } = starts;
        Ok(Pool {
            frames,
            dirty,
            queues,
            unread,
            numbers: Numbers::from(1),
            rooms: Vec::new(alloc),
            alloc,
        })
    }
}

// What a pool has in memory after a restart.
fn restarted(
    alloc: Global,
    pages: u32,
    position: Lsn,
    rows: &[LoggedPage],
) -> Result<(Starts, Queues), AllocError>
    requires { pages ≤ 4096 }
    ensures starts { IfOk result (λ r. r.0 ≡ fold with_row (started_at pages position) rows.now) }
    ensures queues { IfOk result (λ r. r.1
        ≡ record { waits = replicate pages []; places = replicate pages false }) }
{
    let mut starts = Starts::new(alloc, pages, position)?;
    starts.take_rows(rows);
    let queues = Queues::new(alloc, pages)?;
    Ok((starts, queues))
}
