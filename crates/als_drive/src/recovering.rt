ghost use Rattle.std.specs.Prelude.{◌≡◌, OnOk, IfErr};
ghost use Rattle.als_drive.specs.Driving.{IsDrained, IsRecovered, OnlyRecovers, RecoveryRefused};

use crate::draining::drain_telling;
use crate::progress::{Progress, Silent};
use als_engine::{Events, Fault};
use std::sync::Wait;

/// Brings a standby that was opened to where it was left: its pages are redone, and it is
/// Recovering no more. The first refusal ends it.
pub fn recover<R: Wait, E: Events>(rt: &R, events: &mut E) -> Result<(), Fault>
    // Then nothing waits for redo, and `ready` has ended the recovery. The log, how far it is stable
    // and the control states are as they were, and readers stay readers of it.
    ensures done { OnOk result (E.alone → IsRecovered (E.machine events.new)) }
    ensures keeps { OnOk result (E.alone → OnlyRecovers (E.machine events.old) (E.machine events.new)) }
    ensures fails { IfErr result (λ f. E.alone → RecoveryRefused f (E.machine events.new)) }
    ensures book { E.book events.new ≡ E.book events.old }
{
    recover_telling(rt, events, &mut Silent)
}

/// The same, and tells how the redo goes on.
#[tactic(auto, using(crate::proofs::Readied::drain_refused, crate::proofs::Readied::redo_then_recovers))]
pub fn recover_telling<R: Wait, E: Events, P: Progress>(
    rt: &R,
    events: &mut E,
    progress: &mut P,
) -> Result<(), Fault>
    ensures done { OnOk result (E.alone → IsRecovered (E.machine events.new)) }
    ensures keeps { OnOk result (E.alone → OnlyRecovers (E.machine events.old) (E.machine events.new)) }
    ensures fails { IfErr result (λ f. E.alone → RecoveryRefused f (E.machine events.new)) }
    ensures book { E.book events.new ≡ E.book events.old }
{
    drain_telling(events, progress)?;
    make_ready(rt, events)
}

/// Ends the recovery of a standby that nothing waits in, where it is Recovering.
#[tactic(auto, using(crate::proofs::Readied::ready_done, crate::proofs::Readied::ready_before, crate::proofs::Readied::ready_refused, crate::proofs::Readied::ready_keeps, crate::proofs::Readied::unready_keeps))]
fn make_ready<R: Wait, E: Events>(rt: &R, events: &mut E) -> Result<(), Fault>
    requires { E.alone → IsDrained (E.machine events.old) }
    ensures done { OnOk result (E.alone → IsRecovered (E.machine events.new)) }
    ensures keeps { OnOk result (E.alone → OnlyRecovers (E.machine events.old) (E.machine events.new)) }
    ensures fails { IfErr result (λ f. E.alone → RecoveryRefused f (E.machine events.new)) }
    ensures book { E.book events.new ≡ E.book events.old }
{
    match events.ready(rt) {
        Ok(()) => Ok(()),
        Err(Fault::NothingToDo) => Ok(()),
        Err(fault) => Err(fault),
    }
}
