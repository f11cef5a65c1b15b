ghost use Rattle.std.specs.Prelude.{◌≡◌, OnOk};
ghost use Rattle.als_ship.specs.Follows.{SameText};
ghost use Rattle.als_operate.specs.Upkeep.{IsQuiet, IsSettled};

use crate::fault::Fault;
use crate::storing::store;
use als_drive::drain;
use als_engine::{Events, Fault as EngineFault};
use als_ship::force;

/// Puts all that is held on the devices, so that the next opening has nothing to redo: forces the
/// log, redoes and flushes the pages, and takes a checkpoint. The first refusal ends it.
///
/// NotDrained: something waits or is dirty all the same. No test has met that.
#[tactic(auto, using(als_ship::proofs::LogForcing::same_trans, crate::proofs::Keeping::redoes_same))]
pub fn settle<E: Events>(events: &mut E) -> Result<(), Fault>
    // Then nothing waits, no page is dirty, the log is acknowledged to its end, and the published
    // checkpoint is that of all of it.
    ensures settled { OnOk result (E.alone → IsSettled (E.machine events.new)) }
    ensures same { E.alone → SameText (E.machine events.old) (E.machine events.new) }
{
    force(events)?;
    drain(events)?;
    store(events)?;
    check_quiet(events)?;
    Ok(())
}

/// Refused as NotDrained, unless nothing waits, no page is dirty and the log is acknowledged to its
/// end.
fn check_quiet<E: Events>(events: &E) -> Result<(), EngineFault>
    ensures quiet { OnOk result (E.alone → IsQuiet (E.machine events.now)) }
{
    let status = events.status();
    let waits = events.next_pending(0);
    let dirty = events.dirty(0);
    if status.acknowledged.0 < status.end.0 {
        return Err(EngineFault::NotDrained);
    }
    match (waits, dirty) {
        (None, None) => Ok(()),
        _ => Err(EngineFault::NotDrained),
    }
}
