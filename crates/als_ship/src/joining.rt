ghost use Rattle.std.specs.Prelude.{◌≡◌, ℕ, List, Option, OnOk, IfErr};
ghost use Rattle.als_engine.specs.declared.fault.Fault.{Fault as AnyFault};
ghost use Rattle.als_ship.specs.declared.fault.Fault.TheVariants.{Refused};
ghost use Rattle.als_ship.specs.Follows.{TakesUp, AdoptsSynced, NotAdopted, IsOfEvent};
ghost use Rattle.als_ship.specs.Sessions.{Joins, FailsToJoin, KeepsFront};

use crate::fault::Fault;
use crate::follower::position;
use als_engine::Events;
use als_epochs::History;
use als_record::Lsn;
use als_wire::read_epochs;
use std::io::Read;

/// Reads the source's history, and takes it up.
pub(crate) fn join<E: Events, R: Read>(events: &mut E, reader: &mut R) -> Result<(), Fault>
    ensures ok { OnOk result (Joins E.alone (E.machine events.old) (E.machine events.new)
        (R.remaining reader.old) (R.remaining reader.new)) }
    ensures fails { IfErr result (λ f. FailsToJoin E.alone (E.machine events.old) f
        (E.machine events.new) (R.remaining reader.old) (R.remaining reader.new)) }
    ensures front { (behind : Option (List ℕ))
        × KeepsFront E.alone (R.remaining reader.old) behind (E.machine events.old)
        (E.machine events.new) }
{
    let offered = read_epochs(reader)?;
    take_up(events, offered)?;
    Ok(())
}

/// Adopts a history that is not the own one, and answers the position then.
pub(crate) fn take_up<E: Events>(events: &mut E, history: History) -> Result<Lsn, Fault>
    ensures takes { E.alone → TakesUp (E.machine events.old) history result
        (E.machine events.new) }
    ensures says { IfErr result IsOfEvent }
{
    let own = events.history();
    if !own.is(&history) {
        adopt(events, history)?;
    }
    Ok(Lsn(position(events)))
}

/// Adopts a history, and syncs the control block.
fn adopt<E: Events>(events: &mut E, history: History) -> Result<(), Fault>
    ensures ok { OnOk result (E.alone
        → AdoptsSynced (E.machine events.old) history (E.machine events.new)) }
    ensures fails { IfErr result (λ f. (cause : AnyFault) × (f ≡ Refused cause)
        × (E.alone → NotAdopted (E.machine events.old) history cause (E.machine events.new))) }
{
    match events.adopt(history) {
        Ok(()) => {}
        Err(fault) => return Err(Fault::Refused(fault)),
    }
    match events.ctl_sync() {
        Ok(_) => Ok(()),
        Err(fault) => Err(Fault::Refused(fault)),
    }
}
