ghost use Rattle.std.specs.Prelude.{◌≡◌, ◌≤◌, ◌<◌, ℕ, nat_lt, IfOk, IfErr};
ghost use Rattle.als_epochs.specs.Histories.{RisesFrom};
ghost use Rattle.als_ckpt.specs.Again.{LeavesSaid, seals_below};
ghost use Rattle.als_rewind.specs.Fronts.{front_said};

use als_ckpt::{Control, Fault, Phase};
use als_disk::BlockDisk;
use als_epochs::History;
use als_record::Lsn;

/// Whether a seal is below an LSN.
fn is_under(seal: u64, lsn: Lsn) -> bool
    ensures { result ≡ nat_lt seal lsn.0 }
{
    seal < lsn.0
}

/// The seals of a history in front of the first that is not below an LSN.
fn seals_under(history: &History, lsn: Lsn) -> History
    ensures { result ≡ seals_below lsn.0 history.now }
{
    let _epoch = history.epoch();
    let mut front = History::empty();
    for seal in history.seals() {
        if !is_under(*seal, lsn) {
            return front;
        }
        front.push(Lsn(*seal));
    }
    front
}

/// Writes the control block of a node that follows a source and whose log is acknowledged up to an
/// LSN, on a device of its own, and syncs it. Of the history it keeps the seals below that LSN: of
/// the takeovers that were sealed there or above the log holds nothing. There is no checkpoint.
///
/// Device: the disk failed.
pub fn say_front<D: BlockDisk + Drop>(
    disk: D,
    pages: u32,
    log_bytes: u64,
    history: &History,
    mark: Lsn,
) -> Result<D, Fault>
    requires room { 321 ≤ D.block_count disk }
    requires pages { (1 ≤ pages) × (pages ≤ 4096) }
    requires log_bytes { mark.0 ≤ log_bytes }
    requires mark { 16 ≤ mark.0 }
    requires history { RisesFrom 16 history.now }
    // Whatever a crash leaves says it.
    ensures says { IfOk result (λ d. LeavesSaid pages log_bytes (D.slot d)
        (front_said (seals_below mark.0 history.now) mark.0)) }
    ensures fails { IfErr result (λ f. f ≡ Fault.Device) }
{
    let seals = seals_under(history, mark);
    // For the prover alone: what always holds of a history.
    let _epoch = seals.epoch();
    let mut control = match Control::create(disk, pages, log_bytes) {
        Ok(control) => control,
        Err(refused) => {
            let fault = refused.fault;
            drop(refused);
            return Err(fault);
        }
    };
    control.write_phase(Phase::Following, mark, Lsn(0), seals)?;
    control.sync()?;
    Ok(control.into_disk())
}
