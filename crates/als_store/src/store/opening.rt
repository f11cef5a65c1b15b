ghost use Rattle.std.specs.Prelude.{◌≡◌, ◌⊎◌, ℕ, ◌≤◌, ◌+◌, true, false, IfOk, IfErr};
ghost use Rattle.als_record.specs.Commits.{commits_of};
ghost use Rattle.als_reopen.specs.Node.{Node, HoldsLog, IsNode};
ghost use Rattle.als_reopen.specs.Outcomes.{AreSettled, AreLeft, IsOnceAtMost, RefusesOpen, IsBare};
ghost use Rattle.als_reopen.specs.Outcomes.{Synced};
ghost use Rattle.als_store.specs.Opening.{IsOpened, TakesUp, said_in};
ghost use Rattle.als_store.specs.Staying.{StaysNode};

use super::Store;
use crate::opened::Opened;
use crate::origin::Origin;
use als_disk::BlockDisk;
use als_pool::pool_ends_below;
use als_reopen::{Disks, Unreopened, reopen};
use std::alloc::Global;

impl<D: BlockDisk> Store<D> {
    /// Takes up again the devices of a database of so many pages, of which at most `frames` can be
    /// in memory at once: syncs the log, the control block and the pages, and then only reads them.
    /// The store is recovering: the changes that a page may lack wait. So do the commits of the
    /// log, for readers.
    ///
    /// `Device`: a device failed. `Memory`: an allocation failed. Else the first that is met in
    /// reading the control block, its checkpoint, the log's header and its records: `BadControl`,
    /// `Shape` or `Invalid`; then `LogFull`. All hand the devices back.
    pub fn open(
        alloc: Global,
        disks: Disks<D>,
        pages: u32,
        frames: usize,
    ) -> Result<Opened<D>, Unreopened<D>>
        requires pages { (1 ≤ pages) × (pages ≤ 4096) }
        requires log { (1 ≤ D.block_count disks.log) × (D.block_count disks.log ≤ 4194304) }
        requires control { 321 ≤ D.block_count disks.control }
        requires page_blocks { pages ≤ D.block_count disks.pages }
        ensures ok { IfOk result (λ o. IsOpened pages (D.block_count disks.log)
            (D.failures disks.log + D.failures disks.control + D.failures disks.pages)
            (D.attempts disks.log + 1 + (D.attempts disks.control + 1)
            + (D.attempts disks.pages + 1)) o.store.stored) }
        // So many frames there may be, none fewer and none more.
        ensures frames { IfOk result (λ o. o.store.stored.pool.frames.most ≡ frames) }
        // All commits of the log wait for the readers.
        ensures waiting { IfOk result (λ o. o.waiting.queued ≡ commits_of o.store.stored.log) }
        // Devices that hold a log are taken up with it; only a failed device and want of memory are
        // in the way.
        ensures only { (n : Node) → AreSettled (D.slot disks.log)
            → AreSettled (D.slot disks.control)
            → HoldsLog pages (D.block_count disks.log) (D.slot disks.log) (D.slot disks.control) n
            → IfOk result (λ o. (o.store.stored.log ≡ n.log) × (said_in o.store.stored ≡ n.said)) }
        ensures bare { (n : Node) → AreSettled (D.slot disks.log)
            → AreSettled (D.slot disks.control)
            → HoldsLog pages (D.block_count disks.log) (D.slot disks.log) (D.slot disks.control) n
            → IfErr result (λ u. IsBare u.fault) }
        // And where the devices are sound, so is all that the store promises of the pages, of the
        // control states and of the checkpoints.
        ensures warm { (n : Node) → AreSettled (D.slot disks.log)
            → AreSettled (D.slot disks.control) → AreSettled (D.slot disks.pages)
            → IsNode pages (D.block_count disks.log) (D.slot disks.log) (D.slot disks.control)
            (D.slot disks.pages) n
            → IfOk result (λ o. TakesUp n o.store.stored) }
        // Devices that were not synced are taken up by one outcome of the sync that comes first: by
        // one content of each block, which a read might have given.
        ensures synced { IfOk result (λ o. (kept : Synced (D.slot disks.log) (D.slot disks.control)
            (D.slot disks.pages))
            × ((n : Node) → IsNode pages (D.block_count disks.log) kept.log_now kept.control_now
            kept.pages_now n → TakesUp n o.store.stored)) }
        // That outcome gives the log too, whatever the pages hold: the store has the one that it
        // holds, and what its control block says.
        ensures kept { IfOk result (λ o. (kept : Synced (D.slot disks.log) (D.slot disks.control)
            (D.slot disks.pages))
            × ((n : Node) → HoldsLog pages (D.block_count disks.log) kept.log_now kept.control_now n
            → (o.store.stored.log ≡ n.log) × (said_in o.store.stored ≡ n.said))
            × ((n : Node) → IsNode pages (D.block_count disks.log) kept.log_now kept.control_now
            kept.pages_now n → TakesUp n o.store.stored)) }
        // A failed device or want of memory is in the way, or there is an outcome that holds no log.
        ensures unsynced { IfErr result (λ u. IsBare u.fault
            ⊎ ((kept : Synced (D.slot disks.log) (D.slot disks.control) (D.slot disks.pages))
            × ((n : Node) → HoldsLog pages (D.block_count disks.log) kept.log_now kept.control_now
            n → ⊥))) }
        ensures err { IfErr result (λ u. RefusesOpen u.fault pages (D.block_count disks.log)
            (D.slot u.disks.log) (D.slot u.disks.control)
            (D.failures disks.log + D.failures disks.control + D.failures disks.pages)
            (D.failures u.disks.log + D.failures u.disks.control + D.failures u.disks.pages)) }
        // The devices come back, of which each block is as it was or as a sync leaves it.
        ensures back_log { IfErr result (λ u. AreLeft (D.block_count disks.log) (D.slot disks.log)
            (D.slot u.disks.log)) }
        ensures back_control { IfErr result (λ u. AreLeft (D.block_count disks.control)
            (D.slot disks.control) (D.slot u.disks.control)) }
        ensures back_pages { IfErr result (λ u. AreLeft pages (D.slot disks.pages)
            (D.slot u.disks.pages)) }
        // Devices that hold a node hold it on.
        ensures stays { (n : Node) → AreSettled (D.slot disks.log)
            → AreSettled (D.slot disks.control) → AreSettled (D.slot disks.pages)
            → IsNode pages (D.block_count disks.log) (D.slot disks.log) (D.slot disks.control)
            (D.slot disks.pages) n
            → IfErr result (λ u. StaysNode pages (D.block_count disks.log) (D.slot u.disks.log)
            (D.slot u.disks.control) (D.slot u.disks.pages) n) }
        ensures counts { IfErr result (λ u. (D.block_count u.disks.log ≡ D.block_count disks.log)
            × (D.block_count u.disks.control ≡ D.block_count disks.control)
            × (D.block_count u.disks.pages ≡ D.block_count disks.pages)) }
        ensures attempts { IfErr result (λ u.
            IsOnceAtMost (D.attempts disks.log) (D.attempts u.disks.log)
            × IsOnceAtMost (D.attempts disks.control) (D.attempts u.disks.control)
            × IsOnceAtMost (D.attempts disks.pages) (D.attempts u.disks.pages)) }
    {
        pool_ends_below();
        match reopen(alloc, disks, pages, frames) {
            Ok(reopened) => {
                let (log, control, pool, validator, count, waiting) = reopened.into_parts();
                let origin = Origin::of(&log, &control, &pool);
                let store = Store {
                    pages,
                    log,
                    count,
                    control,
                    pool,
                    validator,
                    broken: false,
                    recovering: true,
                    origin,
                };
                Ok(Opened { store, waiting })
            }
            Err(refused) => Err(refused),
        }
    }
}
