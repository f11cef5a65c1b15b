ghost use Rattle.als_workers.specs.Tallies.{AloneRaise, force_events};

use crate::gate::{Gate, Point};
use crate::outcome::Halt;
use als_engine::{Events, Fault};
use std::sync::Wait;

/// At most this many log blocks are written before they are synced and acknowledged.
const BLOCKS_A_PASS: usize = 1024;

/// Forces the log and acknowledges it, once each time that the gate lets it pass.
#[tactic(auto, using(crate::proofs::Tallies::none, crate::proofs::Tallies::both))]
pub fn forcer<E: Events, G: Gate, R: Wait>(rt: &R, events: &mut E, gate: &G) -> Halt
    // It makes no other event.
    ensures { AloneRaise force_events (E.tally events.old) (E.tally events.new) }
{
    for _ in rt.forever() {
        if !gate.pass(Point::Force) {
            return Halt::Gate;
        }
        if let Err(fault) = force(events) {
            return Halt::Refused(fault);
        }
    }
    unreachable!()
}

// Writes and syncs the log, then writes and syncs its mark.
#[tactic(auto, using(crate::proofs::Tallies::one, crate::proofs::Tallies::both))]
fn force<E: Events>(events: &mut E) -> Result<(), Fault>
    ensures { AloneRaise force_events (E.tally events.old) (E.tally events.new) }
{
    write_log(events)?;
    events.log_sync()?;
    mark(events)
}

// Writes the log's blocks that are not written.
#[tactic(auto, using(crate::proofs::Tallies::none, crate::proofs::Tallies::one, crate::proofs::Tallies::both))]
fn write_log<E: Events>(events: &mut E) -> Result<(), Fault>
    ensures { AloneRaise force_events (E.tally events.old) (E.tally events.new) }
{
    for _ in 0..BLOCKS_A_PASS {
        match events.log_write() {
            Ok(()) => {}
            Err(Fault::NothingToDo) => break,
            Err(fault) => return Err(fault),
        }
    }
    Ok(())
}

// Acknowledges the synced log.
#[tactic(auto, using(crate::proofs::Tallies::one, crate::proofs::Tallies::both))]
fn mark<E: Events>(events: &mut E) -> Result<(), Fault>
    ensures { AloneRaise force_events (E.tally events.old) (E.tally events.new) }
{
    match events.mark_write() {
        Ok(()) => {
            events.ctl_sync()?;
            Ok(())
        }
        Err(Fault::NothingToDo) => Ok(()),
        Err(fault) => Err(fault),
    }
}
