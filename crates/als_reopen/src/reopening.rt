// Stopped devices are synced, and read.
ghost use Rattle.std.specs.Prelude.{◌≡◌, ◌⊎◌, ℕ, ◌<◌, ◌≤◌, ◌+◌, IfOk, IfErr};
ghost use Rattle.als_record.specs.Commits.{commits_of};
ghost use Rattle.als_pool.specs.Images.{IsPoolOf};
ghost use Rattle.als_reopen.specs.Node.{Node, HoldsLog, IsNode};
ghost use Rattle.als_reopen.specs.Outcomes.{AreSettled, AreLeft, IsOnceAtMost, all_synced};
ghost use Rattle.als_reopen.specs.Outcomes.{Synced};
ghost use Rattle.als_reopen.specs.Outcomes.{said_now, IsControlRead, AreUnread, IsReopened};
ghost use Rattle.als_reopen.specs.Outcomes.{RefusesOpen, IsBare};

use crate::disks::Disks;
use crate::read_back::read_back;
use crate::reopened::Reopened;
use crate::syncing::sync_all;
use crate::unreopened::Unreopened;
use als_disk::BlockDisk;
use std::alloc::Global;

/// Takes up again the devices of a database of so many pages, of which at most `frames` can be in
/// memory at once: syncs the log, the control block and the pages, and then only reads them. No
/// page is read yet: the changes that it may lack wait.
///
/// `Device`: a device failed. `Memory`: an allocation failed. Else the first that is met in reading
/// the control block, its checkpoint, the log's header and its records: `BadControl`, `Shape` or
/// `Invalid`; `BadControl` where the mark stands within a record, or where the checkpoint is not
/// that of the records below its position. Then `LogFull`: the device has no room for the log and
/// for its reserve (what a takeover and the decisions of transactions in doubt would append). All
/// hand the devices back.
pub fn reopen<D: BlockDisk>(
    alloc: Global,
    disks: Disks<D>,
    pages: u32,
    frames: usize,
) -> Result<Reopened<D>, Unreopened<D>>
    requires pages { (1 ≤ pages) × (pages ≤ 4096) }
    requires log { (1 ≤ D.block_count disks.log) × (D.block_count disks.log ≤ 4194304) }
    requires control { 321 ≤ D.block_count disks.control }
    requires page_blocks { pages ≤ D.block_count disks.pages }
    ensures ok { IfOk result (λ x. IsReopened pages (D.block_count disks.log)
        (said_now x.control) x.log.log x.validator x.count x.pool.pool) }
    // All commits of the log wait for the readers.
    ensures waiting { IfOk result (λ x. x.waiting.queued ≡ commits_of x.log.log) }
    ensures log { IfOk result (λ x. x.log
        ≡ all_synced pages x.log.log (D.block_count disks.log) (D.failures disks.log)
        (D.attempts disks.log + 1) x.log.room) }
    ensures control { IfOk result (λ x. IsControlRead pages (D.block_count disks.log)
        (D.block_count disks.control) (D.failures disks.control)
        (D.attempts disks.control + 1) x.control) }
    ensures stored { IfOk result (λ x. AreUnread pages frames (D.slot disks.pages)
        (D.block_count disks.pages) (D.failures disks.pages)
        (D.attempts disks.pages + 1) x.pool.pool.frames) }
    // Devices that hold a log are taken up with it; only a failed device and want of memory are in
    // the way.
    ensures only { (n : Node) → AreSettled (D.slot disks.log) → AreSettled (D.slot disks.control)
        → HoldsLog pages (D.block_count disks.log) (D.slot disks.log) (D.slot disks.control) n
        → IfOk result (λ x. (x.log.log ≡ n.log) × (said_now x.control ≡ n.said)) }
    ensures bare { (n : Node) → AreSettled (D.slot disks.log) → AreSettled (D.slot disks.control)
        → HoldsLog pages (D.block_count disks.log) (D.slot disks.log) (D.slot disks.control) n
        → IfErr result (λ u. IsBare u.fault) }
    // And where the blocks of the pages hold what they should, the pages are those of the log.
    ensures warm { (n : Node) → AreSettled (D.slot disks.log) → AreSettled (D.slot disks.control)
        → AreSettled (D.slot disks.pages)
        → IsNode pages (D.block_count disks.log) (D.slot disks.log) (D.slot disks.control)
        (D.slot disks.pages) n
        → IfOk result (λ x. IsPoolOf n.log n.said.state.mark.0 x.pool.pool) }
    // Devices that were not synced are taken up by one outcome of the sync: by one content of each
    // block, which a read might have given.
    ensures synced { IfOk result (λ x. (kept : Synced (D.slot disks.log) (D.slot disks.control)
        (D.slot disks.pages))
        × ((n : Node) → HoldsLog pages (D.block_count disks.log) kept.log_now kept.control_now n
        → (x.log.log ≡ n.log) × (said_now x.control ≡ n.said))
        × ((n : Node) → IsNode pages (D.block_count disks.log) kept.log_now kept.control_now
        kept.pages_now n → IsPoolOf n.log n.said.state.mark.0 x.pool.pool)) }
    // A failed device or want of memory is in the way, or there is an outcome that holds no log.
    ensures unsynced { IfErr result (λ u. IsBare u.fault
        ⊎ ((kept : Synced (D.slot disks.log) (D.slot disks.control) (D.slot disks.pages))
        × ((n : Node) → HoldsLog pages (D.block_count disks.log) kept.log_now kept.control_now n
        → ⊥))) }
    ensures err { IfErr result (λ u. RefusesOpen u.fault pages (D.block_count disks.log)
        (D.slot u.disks.log) (D.slot u.disks.control)
        (D.failures disks.log + D.failures disks.control + D.failures disks.pages)
        (D.failures u.disks.log + D.failures u.disks.control + D.failures u.disks.pages)) }
    // The devices come back, of which each block is as it was or as a sync leaves it.
    ensures back_log { IfErr result (λ u. AreLeft (D.block_count disks.log) (D.slot disks.log)
        (D.slot u.disks.log)) }
    ensures back_control { IfErr result (λ u. AreLeft (D.block_count disks.control)
        (D.slot disks.control) (D.slot u.disks.control)) }
    ensures back_pages { IfErr result (λ u. AreLeft pages (D.slot disks.pages)
        (D.slot u.disks.pages)) }
    ensures counts { IfErr result (λ u. (D.block_count u.disks.log ≡ D.block_count disks.log)
        × (D.block_count u.disks.control ≡ D.block_count disks.control)
        × (D.block_count u.disks.pages ≡ D.block_count disks.pages)) }
    ensures attempts { IfErr result (λ u. IsOnceAtMost (D.attempts disks.log)
        (D.attempts u.disks.log)
        × IsOnceAtMost (D.attempts disks.control) (D.attempts u.disks.control)
        × IsOnceAtMost (D.attempts disks.pages) (D.attempts u.disks.pages)) }
{
    let mut disks = disks;
    match sync_all(&mut disks) {
        Ok(()) => {}
        Err(fault) => return Err(Unreopened { disks, fault }),
    }
    match read_back(alloc, disks, pages, frames) {
        Ok(read) => Ok(read),
        Err(unread) => Err(unread),
    }
}
