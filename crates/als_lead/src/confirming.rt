ghost use Rattle.std.specs.Prelude.{◌≡◌, ℕ, true, IfOk, OnOk};
ghost use Rattle.als_lead.specs.Going.{Grows};
ghost use Rattle.als_lead.specs.Confirming.{IsForcedBy, IsFailedBy, GoesOn, PublishesIn, IsShowable, IsWhole, IsShown};

use crate::forced::Forced;
use crate::forcing::make_durable;
use crate::upkeep::Upkeep;
use als_engine::{Events, Fault as EngineFault};
use als_operate::Fault;
use als_record::Lsn;

/// The result of a group's force: waits until enough others hold the log.
pub(crate) fn confirmed<U: Upkeep>(upkeep: &mut U, forced: Result<Lsn, EngineFault>) -> Forced
    ensures by { IsForcedBy (U.confirmed upkeep.new) (U.missed upkeep.new) forced result }
    ensures failed { IsFailedBy (U.failed upkeep.new) forced result }
    ensures keeps { (n : ℕ) → U.confirmed upkeep.old n → U.confirmed upkeep.new n }
    ensures misses { (n : ℕ) → U.missed upkeep.old n → U.missed upkeep.new n }
    ensures alike { (other : U) → U.alike other upkeep.old → U.alike other upkeep.new }
{
    match forced {
        Ok(lsn) => match upkeep.confirm(lsn) {
            Ok(true) => Forced::Confirmed(lsn),
            Ok(false) => Forced::Unconfirmed,
            Err(fault) => Forced::Failed(fault),
        },
        Err(fault) => Forced::Failed(fault),
    }
}

/// Shows readers a group that is confirmed, and no other one.
pub(crate) fn show<E: Events, U: Upkeep>(
    engine: &mut E,
    upkeep: &mut U,
    forced: Forced,
) -> Result<(), Fault>
    requires confirmed { IsShowable E.alone (U.confirmed upkeep.old) (E.machine engine.old) forced }
    ensures publishes { E.alone
        → PublishesIn forced (E.machine engine.old) (E.machine engine.new) }
    ensures goes_on { OnOk result (GoesOn forced) }
    ensures keeps { (n : ℕ) → U.confirmed upkeep.old n → U.confirmed upkeep.new n }
    ensures misses { (n : ℕ) → U.missed upkeep.old n → U.missed upkeep.new n }
    ensures alike { (other : U) → U.alike other upkeep.old → U.alike other upkeep.new }
    ensures book { E.book engine.new ≡ E.book engine.old }
{
    match forced {
        Forced::Confirmed(_) => match upkeep.publish(engine) {
            Ok(()) => Ok(()),
            Err(fault) => Err(Fault::Refused(fault)),
        },
        Forced::Unconfirmed => Ok(()),
        Forced::Failed(fault) => Err(Fault::Refused(fault)),
    }
}

/// Makes the log durable, if it is not, and returns whether enough others hold all of it. If so, readers
/// see all of it.
pub(crate) fn confirm_earlier<E: Events, U: Upkeep>(
    engine: &mut E,
    upkeep: &mut U,
) -> Result<bool, Fault>
    ensures grows { E.alone → Grows (E.machine engine.old) (E.machine engine.new) }
    ensures same { E.alone
        → (E.machine engine.new).held.log ≡ (E.machine engine.old).held.log }
    ensures whole { IfOk result (λ yes. yes ≡ true → E.alone
        → IsWhole (U.confirmed upkeep.new) (E.machine engine.new)) }
    ensures shown { E.alone
        → IsShown (U.confirmed upkeep.new) (E.machine engine.old) (E.machine engine.new) }
    ensures keeps { (n : ℕ) → U.confirmed upkeep.old n → U.confirmed upkeep.new n }
    ensures misses { (n : ℕ) → U.missed upkeep.old n → U.missed upkeep.new n }
    ensures alike { (other : U) → U.alike other upkeep.old → U.alike other upkeep.new }
    ensures book { E.book engine.new ≡ E.book engine.old }
{
    let lsn = make_durable(engine)?;
    if !upkeep.has_confirmed(lsn)? {
        return Ok(false);
    }
    upkeep.publish(engine)?;
    Ok(true)
}
