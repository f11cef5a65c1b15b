// The log and the pages of stopped devices, once the control block was read.
ghost use Rattle.std.specs.Prelude.{◌≡◌, ℕ, ◌<◌, ◌≤◌, ◌+◌, ◌*◌, true, false, List, [], IfOk, IfErr};
ghost use Rattle.std.specs.Prelude.{IfSome};
ghost use Rattle.als_record.specs.declared.record.Record.{Record as AnyRecord};
ghost use Rattle.als_record.specs.LogText.{log_text, end_of};
ghost use Rattle.als_record.specs.Commits.{commits_of};
ghost use Rattle.als_record.specs.Validity.{IsValidLog};
ghost use Rattle.als_record.specs.Tail.{reserve_of};
ghost use Rattle.als_frames.specs.Frames.{without_frames};
ghost use Rattle.als_scan.specs.Scanned.{scanned};
ghost use Rattle.als_scan.specs.Texts.{text_of};
ghost use Rattle.als_pool.specs.Restart.{HoldsImagesFrom, HoldsImagesOf};
ghost use Rattle.als_reopen.specs.Node.{position_of, rows_of};
ghost use Rattle.als_reopen.specs.Outcomes.{AreSettled, all_synced, IsReopened, IsBare};
ghost use Rattle.als_reopen.specs.Reading.{IsReading, IsMet};
ghost use Rattle.als_reopen.specs.Reading.{IsLogOn, IsFrontOf, KeepsImages, IsBelowMark, CountsLog};
ghost use Rattle.als_reopen.specs.Reading.{IsScanLeft, IsPoolLeft, IsDiskLeft, IsPoolOpened};
ghost use Rattle.als_reopen.specs.Refusing.{RefusesText, RefusesScan};

use crate::fault::Fault;
use crate::read_log::ReadLog;
use crate::reading::Reading;
use crate::taken::Taken;
use crate::unread_log::UnreadLog;
use als_ckpt::ControlState;
use als_ckpt_codec::Checkpoint;
use als_commits::Waiting;
use als_disk::BlockDisk;
use als_pool::Pool;
use als_record::{LoggedPage, Lsn};
use als_scan::{Scan, Unread};
use als_tables::CommitCount;
use std::alloc::Global;

/// Where a restart begins to look for what the pages lack.
fn position_of(checkpoint: &Option<Checkpoint>) -> Lsn
    ensures { result ≡ position_of checkpoint.now }
{
    match checkpoint {
        Some(checkpoint) => checkpoint.numbers.position,
        None => Lsn(16),
    }
}

/// The dirty pages of a checkpoint.
fn rows_of(checkpoint: &Option<Checkpoint>) -> &[LoggedPage]
    ensures { result.now ≡ rows_of checkpoint.now }
{
    match checkpoint {
        Some(checkpoint) => checkpoint.pages.as_slice(),
        None => &[],
    }
}

/// Whether a device of so many blocks has room for the log that was read and for its reserve: what
/// a takeover and the decisions of transactions in doubt would append.
fn has_room<D: BlockDisk>(scan: &Scan<D>, blocks: u64) -> bool
    requires { blocks ≡ scan.now.blocks }
    ensures fits { result ≡ true → end_of scan.now.log + reserve_of scan.now.log ≤ 512 * blocks }
    ensures full { result ≡ false → 512 * blocks < end_of scan.now.log + reserve_of scan.now.log }
{
    let end = scan.end();
    let free = 512 * blocks - end.0;
    if free < scan.validator().reserve_bytes() {
        return false;
    }
    true
}

/// Reads the log whole, and takes it up where its device has room for it and for its reserve.
fn finish<D: BlockDisk>(
    alloc: Global,
    reading: Reading<D>,
    state: &ControlState,
    checkpoint: &Option<Checkpoint>,
    blocks: u64,
) -> Result<ReadLog<D>, UnreadLog<D>>
    requires reading { IsReading checkpoint.now reading.scan reading.taken.pool.pool reading.taken.count }
    requires waiting { reading.taken.waiting.queued ≡ commits_of reading.scan.log }
    requires met { IsMet reading.met reading.scan.log checkpoint.now }
    requires low { IfSome checkpoint.now (λ c. c.numbers.position.0 ≤ reading.scan.mark) }
    requires mark { reading.scan.mark ≡ state.now.mark.0 }
    requires blocks { blocks ≡ reading.scan.blocks }
    ensures ok { IfOk result (λ x. IsReopened reading.scan.pages blocks (record {
      state = state.now;
      checkpoint = checkpoint.now;
    })
        x.log.log x.validator x.count x.pool.pool) }
    ensures waiting { IfOk result (λ x. x.waiting.queued ≡ commits_of x.log.log) }
    ensures log { IfOk result (λ x. x.log
        ≡ all_synced reading.scan.pages x.log.log blocks reading.scan.failures reading.scan.attempts
        x.log.room) }
    ensures text { IfOk result (λ x. reading.scan.text ≡ log_text reading.scan.pages x.log.log) }
    ensures frames { IfOk result (λ x. x.pool.pool.frames ≡ reading.taken.pool.pool.frames) }
    ensures images { IfOk result (λ x. KeepsImages reading.taken.pool.pool x.pool.pool) }
    ensures bare { (whole : List AnyRecord)
        → IsLogOn reading.scan.pages blocks reading.scan.mark reading.scan.text checkpoint.now whole
        → IsFrontOf reading.scan.log whole → IfErr result (λ u. IsBare u.fault) }
    ensures refuses { IfErr result (λ u. RefusesScan u.fault reading.scan checkpoint.now) }
    ensures failures { IfErr result (λ u. CountsLog u.fault reading.scan.failures
        (D.failures u.log)) }
    ensures left_log { IfErr result (λ u. IsScanLeft reading.scan (D.slot u.log)
        (D.block_count u.log) (D.attempts u.log)) }
    ensures left_pages { IfErr result (λ u. IsPoolLeft reading.taken.pool.pool.frames
        (D.slot u.pages) (D.block_count u.pages) (D.failures u.pages) (D.attempts u.pages)) }
{
    let mut reading = reading;
    match reading.read_all(alloc, checkpoint) {
        Ok(()) => {}
        Err(fault) => return Err(reading.into_disks(fault)),
    }
    if !has_room(&reading.scan, blocks) {
        return Err(reading.into_disks(Fault::LogFull));
    }
    match reading.take_up(state.phase) {
        Ok(read) => Ok(read),
        Err(unread) => Err(unread),
    }
}

/// The pages, of which none was read; what waits begins where the checkpoint says. The device comes
/// back where an allocation failed.
fn open_pool<D: BlockDisk>(
    alloc: Global,
    disk: D,
    pages: u32,
    frames: usize,
    checkpoint: &Option<Checkpoint>,
) -> Result<Pool<D>, D>
    requires room { pages ≤ D.block_count disk }
    requires limit { pages ≤ 4096 }
    ensures ok { IfOk result (λ p. IsPoolOpened checkpoint.now p.pool) }
    ensures frames { IfOk result (λ p. p.pool.frames
        ≡ without_frames pages frames (D.slot disk) (D.block_count disk) (D.failures disk)
        (D.attempts disk)) }
    ensures images { IfOk result (λ p. (whole : List AnyRecord) (below : ℕ)
        → HoldsImagesFrom whole below pages (position_of checkpoint.now) (rows_of checkpoint.now)
        (D.slot disk) → HoldsImagesOf whole below p.pool) }
    ensures err { IfErr result (λ d. d ≡ disk) }
{
    match Pool::open(
        alloc,
        disk,
        pages,
        frames,
        position_of(checkpoint),
        rows_of(checkpoint),
    ) {
        Ok(pool) => Ok(pool),
        Err(disk) => Err(disk),
    }
}

/// The beginning of a log, of which the header was read.
fn begin<D: BlockDisk>(
    alloc: Global,
    log: D,
    pool: Pool<D>,
    pages: u32,
    mark: Lsn,
    checkpoint: &Option<Checkpoint>,
) -> Result<Reading<D>, UnreadLog<D>>
    requires pages { (1 ≤ pages) × (pages ≤ 4096) }
    requires settled { AreSettled (D.slot log) }
    requires few { D.block_count log ≤ 4194304 }
    requires mark { (16 ≤ mark.0) × (mark.0 ≤ 512 * D.block_count log) }
    requires position { IfSome checkpoint.now (IsBelowMark mark.0) }
    requires opened { IsPoolOpened checkpoint.now pool.pool }
    requires paged { pool.pool.frames.pages ≡ pages }
    ensures reading { IfOk result (λ r. IsReading checkpoint.now r.scan r.taken.pool.pool r.taken.count) }
    ensures waiting { IfOk result (λ r. r.taken.waiting.queued ≡ commits_of r.scan.log) }
    ensures met { IfOk result (λ r. IsMet r.met r.scan.log checkpoint.now) }
    ensures scan { IfOk result (λ r. r.scan
        ≡ scanned pages [] mark.0 (D.slot log) (D.block_count log) (D.failures log)
        (D.attempts log)) }
    ensures pool { IfOk result (λ r. r.taken.pool ≡ pool) }
    ensures bare { (whole : List AnyRecord) → IsValidLog pages whole
        → text_of (D.slot log) mark.0 ≡ log_text pages whole → IfErr result (λ u. IsBare u.fault) }
    ensures refuses { IfErr result (λ u. RefusesText u.fault pages (D.block_count log) mark.0
        (text_of (D.slot log) mark.0) checkpoint.now) }
    ensures failures { IfErr result (λ u. CountsLog u.fault (D.failures log) (D.failures u.log)) }
    ensures left_log { IfErr result (λ u. IsDiskLeft (D.block_count log) (D.slot log) (D.slot u.log)
        (D.block_count log) (D.attempts log)
        (D.block_count u.log) (D.attempts u.log)) }
    ensures left_pages { IfErr result (λ u. IsPoolLeft pool.pool.frames (D.slot u.pages)
        (D.block_count u.pages) (D.failures u.pages) (D.attempts u.pages)) }
{
    // For the prover alone: there are as many blocks as pages that wait for changes.
    let _ = pool.pages();
    match Scan::new(alloc, log, pages, mark.0) {
        Ok(scan) => Ok(Reading {
            scan,
            taken: Taken {
                pool,
                count: CommitCount::new(),
                waiting: Waiting::new(alloc),
            },
            met: false,
        }),
        Err(unread) => {
            let Unread { disk, fault } = unread;
            let fault = Fault::from(fault);
            Err(UnreadLog {
                log: disk,
                pages: pool.into_disk(),
                fault,
            })
        }
    }
}

/// The log, the pages and what a restart takes of the log, over devices that were synced, once the
/// control block was read.
///
/// `Device`: the log's device failed. `Memory`: an allocation failed. Else the first fault of the
/// log's bytes. Both devices come back.
pub(crate) fn read_log<D: BlockDisk>(
    alloc: Global,
    log: D,
    page_disk: D,
    pages: u32,
    frames: usize,
    state: &ControlState,
    checkpoint: &Option<Checkpoint>,
) -> Result<ReadLog<D>, UnreadLog<D>>
    requires pages { (1 ≤ pages) × (pages ≤ 4096) }
    requires settled { AreSettled (D.slot log) }
    requires few { D.block_count log ≤ 4194304 }
    requires mark { (16 ≤ state.now.mark.0) × (state.now.mark.0 ≤ 512 * D.block_count log) }
    requires position { IfSome checkpoint.now (IsBelowMark state.now.mark.0) }
    requires room { pages ≤ D.block_count page_disk }
    ensures ok { IfOk result (λ x. IsReopened pages (D.block_count log) (record {
      state = state.now;
      checkpoint = checkpoint.now;
    })
        x.log.log x.validator x.count x.pool.pool) }
    ensures waiting { IfOk result (λ x. x.waiting.queued ≡ commits_of x.log.log) }
    ensures log { IfOk result (λ x. x.log
        ≡ all_synced pages x.log.log (D.block_count log) (D.failures log)
        (D.attempts log) x.log.room) }
    ensures text { IfOk result (λ x. text_of (D.slot log) state.now.mark.0 ≡ log_text pages x.log.log) }
    ensures frames { IfOk result (λ x. x.pool.pool.frames
        ≡ without_frames pages frames (D.slot page_disk) (D.block_count page_disk)
        (D.failures page_disk)
        (D.attempts page_disk)) }
    ensures images { IfOk result (λ x. (whole : List AnyRecord) (below : ℕ)
        → HoldsImagesFrom whole below pages (position_of checkpoint.now) (rows_of checkpoint.now)
        (D.slot page_disk) → HoldsImagesOf whole below x.pool.pool) }
    ensures bare { (whole : List AnyRecord)
        → IsLogOn pages (D.block_count log) state.now.mark.0
        (text_of (D.slot log) state.now.mark.0) checkpoint.now whole
        → IfErr result (λ u. IsBare u.fault) }
    // Over any text the fault is the first that is met in it.
    ensures refuses { IfErr result (λ u. RefusesText u.fault pages (D.block_count log) state.now.mark.0
        (text_of (D.slot log) state.now.mark.0) checkpoint.now) }
    ensures failures { IfErr result (λ u. CountsLog u.fault (D.failures log) (D.failures u.log)
        × (D.failures u.pages ≡ D.failures page_disk)) }
    ensures left_log { IfErr result (λ u. IsDiskLeft (D.block_count log) (D.slot log) (D.slot u.log)
        (D.block_count log) (D.attempts log)
        (D.block_count u.log) (D.attempts u.log)) }
    ensures left_pages { IfErr result (λ u. IsDiskLeft pages (D.slot page_disk) (D.slot u.pages)
        (D.block_count page_disk) (D.attempts page_disk)
        (D.block_count u.pages) (D.attempts u.pages)) }
{
    let blocks = log.blocks();
    let pool = match open_pool(alloc, page_disk, pages, frames, checkpoint) {
        Ok(pool) => pool,
        Err(disk) => {
            let fault = Fault::Memory;
            return Err(UnreadLog {
                log,
                pages: disk,
                fault,
            });
        }
    };
    let reading = match begin(alloc, log, pool, pages, state.mark, checkpoint) {
        Ok(reading) => reading,
        Err(unread) => return Err(unread),
    };
    match finish(alloc, reading, state, checkpoint, blocks) {
        Ok(read) => Ok(read),
        Err(unread) => Err(unread),
    }
}
