ghost use Rattle.std.specs.Prelude.{◌≡◌, true, OnOk};
ghost use Rattle.als_record.specs.Tail.{is_undone};
ghost use Rattle.als_drive.specs.Driving.{IsDrained};
ghost use Rattle.als_engine.specs.declared.status.State.TheVariants.{Primary};
ghost use Rattle.als_engine.specs.Machine.{state_of};
ghost use Rattle.als_operate.specs.TakingOver.{GoesAlong, IsStable, IsSynced, TakesOver};

use crate::fault::Fault;
use als_drive::{Progress, Silent, drain, recover_telling};
use als_engine::{Events, Fault as EngineFault, State};
use als_ship::force;
use std::sync::Wait;

/// Makes a primary of a standby: seals the log once all of it is stable, undoes what was not
/// committed, and ends the takeover once that is stable and redone. The first refusal ends it. It
/// may be called again after a stop: the takeover then goes on. Memory: `ready` had none for the
/// readers' list, and nothing of the standby was lost.
pub fn take_over<R: Wait, E: Events>(rt: &R, events: &mut E) -> Result<(), Fault>
    // Only a primary is answered.
    ensures done { OnOk result (E.alone → state_of (E.machine events.new) ≡ Primary) }
    // Its log is the one that it came in with and the whole tail of that, and nothing else: no
    // transaction in doubt is decided. All of it is acknowledged and redone.
    ensures taken { OnOk result (E.alone
        → TakesOver (E.machine events.old) (E.machine events.new)) }
{
    take_over_telling(rt, events, &mut Silent)
}

/// The same. `progress` receives the progress of the redo of what it was opened with.
pub fn take_over_telling<R: Wait, E: Events, P: Progress>(
    rt: &R,
    events: &mut E,
    progress: &mut P,
) -> Result<(), Fault>
    ensures done { OnOk result (E.alone → state_of (E.machine events.new) ≡ Primary) }
    ensures taken { OnOk result (E.alone
        → TakesOver (E.machine events.old) (E.machine events.new)) }
{
    recover_telling(rt, events, progress)?;
    force(events)?;
    seal(events)?;
    undo_all(events)?;
    force(events)?;
    drain(events)?;
    finish(events)?;
    check_primary(events)?;
    check_stable(events)?;
    Ok(())
}

/// Refused as NotDrained, unless it is a primary.
fn check_primary<E: Events>(events: &E) -> Result<(), EngineFault>
    ensures { OnOk result (E.alone → state_of (E.machine events.now) ≡ Primary) }
{
    match events.status().state {
        State::Primary => Ok(()),
        _ => Err(EngineFault::NotDrained),
    }
}

/// Refused as NotDrained, unless the log is acknowledged to its end.
pub(crate) fn check_stable<E: Events>(events: &E) -> Result<(), EngineFault>
    ensures { OnOk result (E.alone → IsStable (E.machine events.now)) }
{
    let status = events.status();
    if status.acknowledged.0 < status.end.0 {
        return Err(EngineFault::NotDrained);
    }
    Ok(())
}

/// Seals the log, where it was not sealed.
#[tactic(auto, using(crate::proofs::Takeovers::sealed_log))]
fn seal<E: Events>(events: &mut E) -> Result<(), EngineFault>
    ensures { OnOk result (E.alone
        → (E.machine events.new).held.log ≡ (E.machine events.old).held.log) }
{
    match events.status().state {
        State::Following | State::Refusing { .. } => {
            events.seal()?;
            events.ctl_sync()?;
            Ok(())
        }
        _ => Ok(()),
    }
}

/// Holds each record of the log's tail.
#[tactic(auto, using(crate::proofs::Takeovers::along_none, crate::proofs::Takeovers::along_more, crate::proofs::Takeovers::undo_along, crate::proofs::Takeovers::undone_all))]
pub(crate) fn undo_all<E: Events>(events: &mut E) -> Result<(), EngineFault>
    ensures along { E.alone → GoesAlong (E.machine events.old) (E.machine events.new) }
    ensures done { OnOk result (E.alone → is_undone (E.machine events.new).held.log ≡ true) }
{
    for _ in 0..u64::MAX {
        match events.undo_one() {
            Ok(_) => {}
            Err(EngineFault::NothingToDo) => return Ok(()),
            Err(fault) => return Err(fault),
        }
    }
    Err(EngineFault::LogFull)
}

/// Ends the takeover, where it was not ended. The control block is synced then, if it was before.
#[tactic(auto, using(crate::proofs::Takeovers::finished_log, crate::proofs::Takeovers::finished_drained, crate::proofs::Takeovers::finished_synced))]
fn finish<E: Events>(events: &mut E) -> Result<(), EngineFault>
    ensures log { OnOk result (E.alone
        → (E.machine events.new).held.log ≡ (E.machine events.old).held.log) }
    ensures drained { OnOk result (E.alone → IsDrained (E.machine events.old)
        → IsDrained (E.machine events.new)) }
    ensures synced { OnOk result (E.alone → IsSynced (E.machine events.old)
        → IsSynced (E.machine events.new)) }
{
    match events.status().state {
        State::Primary => Ok(()),
        _ => {
            events.finish()?;
            events.ctl_sync()?;
            Ok(())
        }
    }
}
