ghost use Rattle.std.specs.Prelude.{◌≡◌, IfOk, IfErr};
ghost use Rattle.als_store.specs.Stored.{acknowledged};
ghost use Rattle.als_lead.specs.Going.{Stays};
ghost use Rattle.als_lead.specs.Groups.{IsStableTo};
ghost use Rattle.als_lead.specs.Owed.{IsNotForced};

use als_engine::{Events, Fault};
use als_record::Lsn;

/// Makes the log durable to its end, if it is not, and returns the acknowledged LSN.
///
/// NotDrained: the log is not acknowledged to its end after a force. No test has met that.
#[tactic(auto, using(crate::proofs::Going::stays_refl, crate::proofs::Going::stable_to, crate::proofs::Failing::not_drained))]
pub(crate) fn make_durable<E: Events>(engine: &mut E) -> Result<Lsn, Fault>
    ensures stays { E.alone → Stays (E.machine engine.old) (E.machine engine.new) }
    ensures stable { IfOk result (λ lsn. E.alone → IsStableTo (E.machine engine.new) lsn) }
    ensures exact { IfOk result (λ lsn. E.alone
        → lsn.0 ≡ acknowledged (E.machine engine.new).held) }
    ensures refused { IfErr result (λ f. E.alone
        → IsNotForced E E.machine (E.machine engine.old) f) }
    ensures book { E.book engine.new ≡ E.book engine.old }
{
    let before = engine.status();
    if before.end.0 <= before.acknowledged.0 {
        return Ok(before.acknowledged);
    }
    force(engine)?;
    let after = engine.status();
    if after.end.0 <= after.acknowledged.0 {
        return Ok(after.acknowledged);
    }
    Err(Fault::NotDrained)
}

/// Writes the log, syncs it, writes its mark and syncs the control block.
#[tactic(auto, using(crate::proofs::Going::stays_trans, crate::proofs::Failing::not_forced_stays, crate::proofs::Failing::not_drained))]
fn force<E: Events>(engine: &mut E) -> Result<(), Fault>
    ensures stays { E.alone → Stays (E.machine engine.old) (E.machine engine.new) }
    ensures refused { IfErr result (λ f. E.alone
        → IsNotForced E E.machine (E.machine engine.old) f) }
    ensures book { E.book engine.new ≡ E.book engine.old }
{
    write_log(engine)?;
    sync_log(engine)?;
    write_mark(engine)?;
    sync_control(engine)
}

/// Writes the unwritten blocks of the log.
#[tactic(auto, using(crate::proofs::Going::stays_trans, crate::proofs::Failing::not_forced_stays, crate::proofs::Failing::not_drained))]
fn write_log<E: Events>(engine: &mut E) -> Result<(), Fault>
    ensures stays { E.alone → Stays (E.machine engine.old) (E.machine engine.new) }
    ensures refused { IfErr result (λ f. E.alone
        → IsNotForced E E.machine (E.machine engine.old) f) }
    ensures book { E.book engine.new ≡ E.book engine.old }
{
    for _ in 0..u64::MAX {
        let is_written = write_block(engine)?;
        if !is_written {
            return Ok(());
        }
    }
    Err(Fault::NotDrained)
}

/// Writes the next block of the log. Returns whether there was one.
#[tactic(auto, using(crate::proofs::Going::stays_log_write, crate::proofs::Failing::not_forced_log_write))]
fn write_block<E: Events>(engine: &mut E) -> Result<bool, Fault>
    ensures stays { E.alone → Stays (E.machine engine.old) (E.machine engine.new) }
    ensures refused { IfErr result (λ f. E.alone
        → IsNotForced E E.machine (E.machine engine.old) f) }
    ensures book { E.book engine.new ≡ E.book engine.old }
{
    match engine.log_write() {
        Ok(()) => Ok(true),
        Err(Fault::NothingToDo) => Ok(false),
        Err(fault) => Err(fault),
    }
}

/// Syncs the log.
#[tactic(auto, using(crate::proofs::Going::stays_log_sync, crate::proofs::Failing::not_forced_log_sync))]
fn sync_log<E: Events>(engine: &mut E) -> Result<(), Fault>
    ensures stays { E.alone → Stays (E.machine engine.old) (E.machine engine.new) }
    ensures refused { IfErr result (λ f. E.alone
        → IsNotForced E E.machine (E.machine engine.old) f) }
    ensures book { E.book engine.new ≡ E.book engine.old }
{
    match engine.log_sync() {
        Ok(()) => Ok(()),
        Err(fault) => Err(fault),
    }
}

/// Writes the control block with the log's synced end as its mark, if that has risen.
#[tactic(auto, using(crate::proofs::Going::stays_mark_write, crate::proofs::Failing::not_forced_mark_write))]
fn write_mark<E: Events>(engine: &mut E) -> Result<(), Fault>
    ensures stays { E.alone → Stays (E.machine engine.old) (E.machine engine.new) }
    ensures refused { IfErr result (λ f. E.alone
        → IsNotForced E E.machine (E.machine engine.old) f) }
    ensures book { E.book engine.new ≡ E.book engine.old }
{
    match engine.mark_write() {
        Ok(()) => Ok(()),
        Err(Fault::NothingToDo) => Ok(()),
        Err(fault) => Err(fault),
    }
}

/// Syncs the control block.
#[tactic(auto, using(crate::proofs::Going::stays_ctl_sync, crate::proofs::Failing::not_forced_ctl_sync))]
pub(crate) fn sync_control<E: Events>(engine: &mut E) -> Result<(), Fault>
    ensures stays { E.alone → Stays (E.machine engine.old) (E.machine engine.new) }
    ensures refused { IfErr result (λ f. E.alone
        → IsNotForced E E.machine (E.machine engine.old) f) }
    ensures book { E.book engine.new ≡ E.book engine.old }
{
    match engine.ctl_sync() {
        Ok(_) => Ok(()),
        Err(fault) => Err(fault),
    }
}
