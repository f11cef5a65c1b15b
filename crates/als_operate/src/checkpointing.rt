ghost use Rattle.std.specs.Prelude.{◌≡◌, OnOk, IfErr};
ghost use Rattle.als_ship.specs.Follows.{SameText};
ghost use Rattle.als_operate.specs.Upkeep.{IsCheckpointed, CheckpointRefused};
ghost use Rattle.als_operate.specs.Building.{Builds};

use als_engine::{Events, Fault};

/// Writes one checkpoint, publishes it, and makes that certain to survive a crash. The first
/// refusal ends it.
///
/// A checkpoint is published only once its blocks are synced, and its position acknowledged: the
/// caller has forced the log.
#[tactic(auto, using(crate::proofs::Checkpoints::taken, crate::proofs::Keeping::ckpt_begin_same, crate::proofs::Keeping::ckpt_publish_same, als_ship::proofs::LogForcing::ctl_sync_same, als_ship::proofs::LogForcing::same_trans, crate::proofs::Refusing::begin_refused, crate::proofs::Refusing::publish_refused, crate::proofs::Refusing::control_refused))]
pub fn checkpoint<E: Events>(events: &mut E) -> Result<(), Fault>
    // Then the published checkpoint is that of the whole held log.
    ensures taken { OnOk result (E.alone → IsCheckpointed (E.machine events.new)) }
    ensures same { E.alone → SameText (E.machine events.old) (E.machine events.new) }
    ensures fails { IfErr result (λ f. E.alone → CheckpointRefused f (E.machine events.new)) }
{
    events.ckpt_begin()?;
    write_blocks(events)?;
    events.ctl_sync()?;
    events.ckpt_publish()?;
    events.ctl_sync()?;
    Ok(())
}

/// Writes each block of the checkpoint that is begun.
#[tactic(auto, using(crate::proofs::Checkpoints::builds_none, crate::proofs::Checkpoints::builds_more, als_ship::proofs::LogForcing::same_refl, als_ship::proofs::LogForcing::same_trans, crate::proofs::Refusing::blocks_spent))]
fn write_blocks<E: Events>(events: &mut E) -> Result<(), Fault>
    ensures builds { OnOk result (E.alone → Builds (E.machine events.old) (E.machine events.new)) }
    ensures same { E.alone → SameText (E.machine events.old) (E.machine events.new) }
    ensures fails { IfErr result (λ f. E.alone → CheckpointRefused f (E.machine events.new)) }
{
    for _ in 0..u64::MAX {
        let is_written = write_block(events)?;
        if !is_written {
            return Ok(());
        }
    }
    Err(Fault::CkptBusy)
}

/// Writes the next block of the checkpoint, and answers whether there was one.
#[tactic(auto, using(crate::proofs::Checkpoints::block_builds_on, crate::proofs::Checkpoints::no_block_builds, crate::proofs::Keeping::ckpt_block_same, crate::proofs::Refusing::block_refused))]
fn write_block<E: Events>(events: &mut E) -> Result<bool, Fault>
    ensures builds { OnOk result (E.alone → Builds (E.machine events.old) (E.machine events.new)) }
    ensures same { E.alone → SameText (E.machine events.old) (E.machine events.new) }
    ensures fails { IfErr result (λ f. E.alone → CheckpointRefused f (E.machine events.new)) }
{
    match events.ckpt_block() {
        Ok(()) => Ok(true),
        Err(Fault::NothingToDo) => Ok(false),
        Err(fault) => Err(fault),
    }
}
