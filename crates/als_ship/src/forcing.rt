ghost use Rattle.std.specs.Prelude.{◌≡◌, ◌≤◌, IfOk, IfErr, OnOk, Ok};
ghost use Rattle.als_engine.specs.Events.{ControlSyncs};
ghost use Rattle.als_ship.specs.Follows.{SameText};
ghost use Rattle.als_ship.specs.Forcing.{WritesAll, Syncs, Forces, FailsToForce, IsOfForce};

use crate::direct::Direct;
use crate::fault::Fault;
use crate::voucher::Voucher;
use als_engine::{Events, Fault as EngineFault};
use als_record::Lsn;

/// Forces the log: what is held is put on the devices, and the acknowledged LSN answered. The
/// standby's refusal: an event was refused, and not for want of something to do.
pub fn force<E: Events>(events: &mut E) -> Result<Lsn, Fault>
    ensures same { E.alone → SameText (E.machine events.old) (E.machine events.new) }
    ensures forces { IfOk result (λ lsn. E.alone
        → Forces (E.machine events.old) lsn (E.machine events.new)) }
    ensures fails { IfErr result (λ f. E.alone → FailsToForce f (E.machine events.new)) }
{
    force_by(events, &mut Direct::new())
}

/// The same, acknowledged by a voucher, which stands for the answer.
#[tactic(auto, using(crate::proofs::LogForcing::same_trans))]
pub(crate) fn force_by<E: Events, V: Voucher<E>>(
    events: &mut E,
    voucher: &mut V,
) -> Result<Lsn, Fault>
    ensures same { E.alone → SameText (E.machine events.old) (E.machine events.new) }
    ensures forces { IfOk result (λ lsn. E.alone
        → Forces (E.machine events.old) lsn (E.machine events.new)) }
    ensures fails { IfErr result (λ f. E.alone → FailsToForce f (E.machine events.new)) }
    ensures says { IfErr result IsOfForce }
    ensures vouched { IfOk result (λ lsn. lsn.0 ≤ V.floor voucher.new) }
    ensures rises { V.floor voucher.old ≤ V.floor voucher.new }
{
    write_log(events)?;
    sync_log(events)?;
    acknowledge(events, voucher)
}

/// Writes what is unwritten of the log.
#[tactic(auto, using(crate::proofs::LogForcing::has_written_none, crate::proofs::LogForcing::has_written_more, crate::proofs::LogForcing::has_written_text, crate::proofs::LogForcing::has_written_all, crate::proofs::LogForcing::log_write_same, crate::proofs::LogForcing::same_trans, crate::proofs::LogForcing::write_refused))]
fn write_log<E: Events>(events: &mut E) -> Result<(), Fault>
    ensures same { E.alone → SameText (E.machine events.old) (E.machine events.new) }
    ensures writes { OnOk result (E.alone
        → WritesAll (E.machine events.old) (E.machine events.new)) }
    ensures fails { IfErr result (λ f. E.alone → FailsToForce f (E.machine events.new)) }
    ensures says { IfErr result IsOfForce }
{
    for _ in 0..u64::MAX {
        match events.log_write() {
            Ok(()) => {}
            Err(EngineFault::NothingToDo) => return Ok(()),
            Err(fault) => return Err(Fault::Refused(fault)),
        }
    }
    Err(Fault::Stream)
}

/// Syncs the log, and writes its mark.
#[tactic(auto, using(crate::proofs::LogForcing::log_sync_same, crate::proofs::LogForcing::mark_write_same, crate::proofs::LogForcing::same_trans, crate::proofs::LogForcing::syncs_marked, crate::proofs::LogForcing::syncs_unmarked, crate::proofs::LogForcing::sync_refused, crate::proofs::LogForcing::mark_refused))]
fn sync_log<E: Events>(events: &mut E) -> Result<(), Fault>
    ensures same { E.alone → SameText (E.machine events.old) (E.machine events.new) }
    ensures syncs { OnOk result (E.alone → Syncs (E.machine events.old) (E.machine events.new)) }
    ensures fails { IfErr result (λ f. E.alone → FailsToForce f (E.machine events.new)) }
    ensures says { IfErr result IsOfForce }
{
    match events.log_sync() {
        Ok(()) => {}
        Err(fault) => return Err(Fault::Refused(fault)),
    }
    match events.mark_write() {
        Ok(()) => Ok(()),
        Err(EngineFault::NothingToDo) => Ok(()),
        Err(fault) => Err(Fault::Refused(fault)),
    }
}

/// Syncs the control block.
#[tactic(auto, using(crate::proofs::LogForcing::ctl_sync_same, crate::proofs::LogForcing::control_refused))]
fn acknowledge<E: Events, V: Voucher<E>>(events: &mut E, voucher: &mut V) -> Result<Lsn, Fault>
    ensures same { E.alone → SameText (E.machine events.old) (E.machine events.new) }
    ensures acknowledges { IfOk result (λ lsn. E.alone
        → ControlSyncs (E.machine events.old) (Ok lsn) (E.machine events.new)) }
    ensures fails { IfErr result (λ f. E.alone → FailsToForce f (E.machine events.new)) }
    ensures says { IfErr result IsOfForce }
    ensures vouched { IfOk result (λ lsn. lsn.0 ≤ V.floor voucher.new) }
    ensures rises { V.floor voucher.old ≤ V.floor voucher.new }
{
    match voucher.acknowledge(events) {
        Ok(lsn) => Ok(lsn),
        Err(fault) => Err(Fault::Refused(fault)),
    }
}
