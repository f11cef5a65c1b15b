ghost use Rattle.als_workers.specs.Tallies.{AloneRaise, checkpoint_events};

use crate::gate::{Gate, Point};
use crate::outcome::Halt;
use als_engine::{Events, Fault};
use std::sync::Wait;

/// A checkpoint has at most this many blocks.
const REGION_BLOCKS: usize = 160;

/// Takes checkpoints, one each time that the gate lets it pass. One that can't be published yet,
/// since the log is not acknowledged up to its position, is published by a later pass.
#[tactic(auto, using(crate::proofs::Tallies::none, crate::proofs::Tallies::both))]
pub fn checkpointer<E: Events, G: Gate, R: Wait>(rt: &R, events: &mut E, gate: &G) -> Halt
    // It makes no other event.
    ensures { AloneRaise checkpoint_events (E.tally events.old) (E.tally events.new) }
{
    for _ in rt.forever() {
        if !gate.pass(Point::Ckpt) {
            return Halt::Gate;
        }
        if let Err(fault) = checkpoint(events) {
            return Halt::Refused(fault);
        }
    }
    unreachable!()
}

// Takes a checkpoint, or goes on with the one that is begun.
#[tactic(auto, using(crate::proofs::Tallies::one, crate::proofs::Tallies::both))]
fn checkpoint<E: Events>(events: &mut E) -> Result<(), Fault>
    ensures { AloneRaise checkpoint_events (E.tally events.old) (E.tally events.new) }
{
    begin(events)?;
    write_blocks(events)?;
    events.ctl_sync()?;
    publish(events)
}

// Begins a checkpoint, unless one is begun.
#[tactic(auto, using(crate::proofs::Tallies::one))]
fn begin<E: Events>(events: &mut E) -> Result<(), Fault>
    ensures { AloneRaise checkpoint_events (E.tally events.old) (E.tally events.new) }
{
    match events.ckpt_begin() {
        Ok(()) | Err(Fault::CkptBusy) => Ok(()),
        Err(fault) => Err(fault),
    }
}

// Writes the blocks that are not written.
#[tactic(auto, using(crate::proofs::Tallies::none, crate::proofs::Tallies::one, crate::proofs::Tallies::both))]
fn write_blocks<E: Events>(events: &mut E) -> Result<(), Fault>
    ensures { AloneRaise checkpoint_events (E.tally events.old) (E.tally events.new) }
{
    for _ in 0..REGION_BLOCKS {
        match events.ckpt_block() {
            Ok(()) => {}
            Err(Fault::NothingToDo) => break,
            Err(fault) => return Err(fault),
        }
    }
    Ok(())
}

// Publishes the checkpoint where its blocks are synced and its position is acknowledged, and makes
// that certain to survive a crash.
#[tactic(auto, using(crate::proofs::Tallies::one, crate::proofs::Tallies::both))]
fn publish<E: Events>(events: &mut E) -> Result<(), Fault>
    ensures { AloneRaise checkpoint_events (E.tally events.old) (E.tally events.new) }
{
    match events.ckpt_publish() {
        Ok(()) => {
            events.ctl_sync()?;
            Ok(())
        }
        Err(Fault::NothingToDo | Fault::CkptBusy | Fault::LogBehind) => Ok(()),
        Err(fault) => Err(fault),
    }
}
