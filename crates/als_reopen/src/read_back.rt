// Synced devices are read.
ghost use Rattle.std.specs.Prelude.{◌≡◌, ℕ, ◌<◌, ◌≤◌, ◌+◌, IfOk, IfErr};
ghost use Rattle.als_record.specs.Commits.{commits_of};
ghost use Rattle.als_frames.specs.Frames.{without_frames};
ghost use Rattle.als_pool.specs.Images.{IsPoolOf};
ghost use Rattle.als_reopen.specs.Node.{Node, HoldsLog, IsNode};
ghost use Rattle.als_reopen.specs.Outcomes.{AreSettled, all_synced, said_now, IsControlRead};
ghost use Rattle.als_reopen.specs.Outcomes.{IsReopened, IsBare};
ghost use Rattle.als_reopen.specs.Reading.{CountsLog, IsDiskLeft};
ghost use Rattle.als_reopen.specs.Refusing.{MeetsFirst};

use crate::disks::Disks;
use crate::fault::Fault;
use crate::joining::read_log;
use crate::reopened::Reopened;
use crate::unread_log::UnreadLog;
use crate::unreopened::Unreopened;
use als_ckpt::{Control, read_said};
use als_disk::BlockDisk;
use als_pool::queues_join_images;
use std::alloc::Global;

/// Reads the control block, its checkpoint and the log, of devices that were synced. No device is
/// written or synced.
pub(crate) fn read_back<D: BlockDisk>(
    alloc: Global,
    disks: Disks<D>,
    pages: u32,
    frames: usize,
) -> Result<Reopened<D>, Unreopened<D>>
    requires pages { (1 ≤ pages) × (pages ≤ 4096) }
    requires log { (1 ≤ D.block_count disks.log) × (D.block_count disks.log ≤ 4194304) }
    requires control { 321 ≤ D.block_count disks.control }
    requires page_blocks { pages ≤ D.block_count disks.pages }
    requires settled_log { AreSettled (D.slot disks.log) }
    requires settled_control { AreSettled (D.slot disks.control) }
    ensures ok { IfOk result (λ x. IsReopened pages (D.block_count disks.log)
        (said_now x.control) x.log.log x.validator x.count x.pool.pool) }
    ensures waiting { IfOk result (λ x. x.waiting.queued ≡ commits_of x.log.log) }
    ensures log { IfOk result (λ x. x.log
        ≡ all_synced pages x.log.log (D.block_count disks.log) (D.failures disks.log)
        (D.attempts disks.log) x.log.room) }
    ensures control { IfOk result (λ x. IsControlRead pages (D.block_count disks.log)
        (D.block_count disks.control) (D.failures disks.control)
        (D.attempts disks.control) x.control) }
    ensures frames { IfOk result (λ x. x.pool.pool.frames
        ≡ without_frames pages frames (D.slot disks.pages) (D.block_count disks.pages)
        (D.failures disks.pages) (D.attempts disks.pages)) }
    ensures only { (n : Node) → HoldsLog pages (D.block_count disks.log) (D.slot disks.log)
        (D.slot disks.control) n
        → IfOk result (λ x. (x.log.log ≡ n.log) × (said_now x.control ≡ n.said)) }
    ensures bare { (n : Node) → HoldsLog pages (D.block_count disks.log) (D.slot disks.log)
        (D.slot disks.control) n → IfErr result (λ u. IsBare u.fault) }
    ensures first { IfErr result (λ u. MeetsFirst u.fault pages (D.block_count disks.log)
        (D.slot disks.log) (D.slot disks.control)) }
    ensures warm { (n : Node) → IsNode pages (D.block_count disks.log) (D.slot disks.log)
        (D.slot disks.control) (D.slot disks.pages) n
        → IfOk result (λ x. IsPoolOf n.log n.said.state.mark.0 x.pool.pool) }
    ensures failures { IfErr result (λ u. CountsLog u.fault (D.failures disks.log
        + D.failures disks.control + D.failures disks.pages)
        (D.failures u.disks.log + D.failures u.disks.control + D.failures u.disks.pages)) }
    ensures left_log { IfErr result (λ u. IsDiskLeft (D.block_count disks.log) (D.slot disks.log)
        (D.slot u.disks.log) (D.block_count disks.log)
        (D.attempts disks.log) (D.block_count u.disks.log) (D.attempts u.disks.log)) }
    ensures left_control { IfErr result (λ u. ((k : ℕ)
        → D.slot u.disks.control k ≡ D.slot disks.control k)
        × (D.block_count u.disks.control ≡ D.block_count disks.control)
        × (D.attempts u.disks.control ≡ D.attempts disks.control)) }
    ensures left_pages { IfErr result (λ u. IsDiskLeft pages (D.slot disks.pages)
        (D.slot u.disks.pages) (D.block_count disks.pages)
        (D.attempts disks.pages) (D.block_count u.disks.pages) (D.attempts u.disks.pages)) }
{
    queues_join_images();
    let mut disks = disks;
    let log_bytes = 512 * disks.log.blocks();
    let (state, checkpoint) = match read_said(alloc, &mut disks.control, pages, log_bytes) {
        Ok(said) => said,
        Err(fault) => {
            let fault = Fault::from(fault);
            return Err(Unreopened { disks, fault });
        }
    };
    let Disks {
        log,
        control,
        pages: page_disk,
    } = disks;
    match read_log(alloc, log, page_disk, pages, frames, &state, &checkpoint) {
        Ok(read) => {
            let control = Control::reopen(control, pages, log_bytes, state, &checkpoint);
            Ok(read.with_control(control))
        }
        Err(unread) => {
            let UnreadLog {
                log,
                pages: page_disk,
                fault,
            } = unread;
            let disks = Disks {
                log,
                control,
                pages: page_disk,
            };
            Err(Unreopened { disks, fault })
        }
    }
}
