ghost use Rattle.std.specs.Prelude.{◌≡◌, ◌<◌, ◌≤◌, ◌+◌, ◌*◌, [], ℕ, IfOk, IfErr};
ghost use Rattle.als_ckpt.specs.Control.{first_state, new_control};
ghost use Rattle.als_pool.specs.Images.{IsPoolOf};
ghost use Rattle.als_store.specs.Stored.{numbered_pool};
ghost use Rattle.als_store.specs.Formatting.{IsHalfFormatted};

use als_ckpt::{Control, clear};
use als_disk::BlockDisk;
use als_log::{LocalLog, NewLog};
use als_pool::{NewPool, Pool};
use als_reopen::Disks;

/// The log, the control block and the pages of a new database, on their devices.
#[derive(Drop)]
pub(crate) struct LaidOut<D: BlockDisk> {
    pub(crate) log: LocalLog<D>,
    pub(crate) control: Control<D>,
    pub(crate) pool: Pool<D>,
}

/// Lays out the devices: clears and syncs the control block, then writes and syncs empty pages and
/// the log's header, then writes and syncs the control block. So a stop on the way leaves no
/// control block that speaks of another log or of other pages. It takes no memory.
///
/// The devices come back where one of them failed.
pub(crate) fn lay_out<D: BlockDisk>(
    disks: Disks<D>,
    pages: u32,
    frames: usize,
    new: NewLog,
    new_pool: NewPool,
) -> Result<LaidOut<D>, Disks<D>>
    requires pages { (1 ≤ pages) × (pages ≤ 4096) × (new ≡ pages)
        × (new_pool.pages ≡ pages) }
    requires log { (1 ≤ D.block_count disks.log) × (D.block_count disks.log ≤ 4194304) }
    requires control { 321 ≤ D.block_count disks.control }
    requires page_blocks { pages ≤ D.block_count disks.pages }
    ensures log { IfOk result (λ laid. laid.log ≡ record {
      pages = pages;
      log = [];
      written = 16;
      synced = 16;
      blocks = D.block_count disks.log;
      failures = D.failures disks.log;
      attempts = D.attempts disks.log + 2;
      room = laid.log.room;
    }) }
    ensures control { IfOk result (λ laid. laid.control
        ≡ new_control pages (512 * D.block_count disks.log) first_state
        (D.block_count disks.control) (D.failures disks.control) laid.control.attempts) }
    ensures pool { IfOk result (λ laid. laid.pool.pool
        ≡ numbered_pool new_pool.first pages frames (D.block_count disks.pages)
        (D.failures disks.pages) (D.attempts disks.pages + pages + 1)) }
    ensures is_pool { IfOk result (λ laid. (below : ℕ) → IsPoolOf [] below laid.pool.pool) }
    ensures device { IfErr result (λ d. D.failures disks.log + D.failures disks.control
        + D.failures disks.pages < D.failures d.log + D.failures d.control + D.failures d.pages) }
    ensures left { IfErr result (λ d. IsHalfFormatted pages (D.slot disks.log) (D.slot d.log)
        (D.slot disks.pages) (D.slot d.pages) (D.slot d.control)) }
    ensures counts { IfErr result (λ d. (D.block_count d.log ≡ D.block_count disks.log)
        × (D.block_count d.control ≡ D.block_count disks.control)
        × (D.block_count d.pages ≡ D.block_count disks.pages)) }
{
    let Disks {
        log,
        mut control,
        pages: page_disk,
    } = disks;
    match clear(&mut control) {
        Ok(()) => {}
        Err(_) => {
            return Err(Disks {
                log,
                control,
                pages: page_disk,
            });
        }
    }
    let pool = match Pool::lay_out(page_disk, new_pool, frames) {
        Ok(pool) => pool,
        Err(page_disk) => {
            return Err(Disks {
                log,
                control,
                pages: page_disk,
            });
        }
    };
    let log = match LocalLog::lay_out(log, new) {
        Ok(log) => log,
        Err(log) => {
            return Err(Disks {
                log,
                control,
                pages: pool.into_disk(),
            });
        }
    };
    let log_bytes = 512 * log.blocks();
    match Control::create(control, pages, log_bytes) {
        Ok(control) => Ok(LaidOut { log, control, pool }),
        Err(refused) => Err(Disks {
            log: log.into_disk(),
            control: refused.disk,
            pages: pool.into_disk(),
        }),
    }
}
