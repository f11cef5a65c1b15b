ghost use Rattle.std.specs.Prelude.{OnOk};
ghost use Rattle.als_operate.specs.Deciding.{IsDecided};

use crate::fault::Fault;
use crate::taking_over::{check_stable, undo_all};
use als_drive::{Progress, drain, recover_telling};
use als_engine::{Decision, Events};
use als_record::TransId;
use als_ship::force;
use std::sync::Wait;

/// Decides a transaction in doubt of a primary: recovers it, commits or rolls back the transaction,
/// appends what that leaves, and makes all of it stable and redone. The first refusal ends it.
/// Nothing is stable before all of it is held, so after a stop the transaction is decided to its
/// end, or in doubt as before.
///
/// NotDrained: the log is not stable to its end all the same. No test has met that.
pub fn decide<R: Wait, E: Events, P: Progress>(
    rt: &R,
    events: &mut E,
    trans: TransId,
    verdict: Decision,
    progress: &mut P,
) -> Result<(), Fault>
    // Then it was in doubt, its commit or rollback record is next in the log, and behind it the tail
    // that this leaves and nothing else: no other transaction is decided. All of it is acknowledged
    // and redone.
    ensures done { OnOk result (E.alone
        → IsDecided (E.machine events.old) trans verdict (E.machine events.new)) }
{
    recover_telling(rt, events, progress)?;
    events.resolve(trans, verdict)?;
    undo_all(events)?;
    force(events)?;
    drain(events)?;
    check_stable(events)?;
    Ok(())
}
