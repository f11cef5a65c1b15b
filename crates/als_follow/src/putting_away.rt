use als_engine::{Events, Fault as EngineFault};
use als_operate::{Fault, settle};
use als_ship::force;

/// A checkpoint has at most this many blocks.
const REGION_BLOCKS: usize = 160;

/// Recalls what is lent, ends a checkpoint that is begun, and puts all that is held on the devices.
/// The first refusal ends it.
pub(crate) fn put_away<E: Events>(events: &mut E) -> Result<(), Fault> {
    recall_all(events)?;
    force(events)?;
    end_checkpoint(events)?;
    settle(events)
}

/// Recalls each page that is lent.
fn recall_all<E: Events>(events: &mut E) -> Result<(), EngineFault> {
    for page in 0..events.pages() {
        match events.recall(page) {
            Ok(()) | Err(EngineFault::NothingToDo) => {}
            Err(fault) => return Err(fault),
        }
    }
    Ok(())
}

/// Writes what is left of a checkpoint that is begun, and publishes it. The log was forced.
fn end_checkpoint<E: Events>(events: &mut E) -> Result<(), EngineFault> {
    write_blocks(events)?;
    events.ctl_sync()?;
    match events.ckpt_publish() {
        Ok(()) | Err(EngineFault::NothingToDo) => Ok(()),
        Err(fault) => Err(fault),
    }
}

/// Writes the blocks that are not written.
fn write_blocks<E: Events>(events: &mut E) -> Result<(), EngineFault> {
    for _ in 0..REGION_BLOCKS {
        match events.ckpt_block() {
            Ok(()) => {}
            Err(EngineFault::NothingToDo) => break,
            Err(fault) => return Err(fault),
        }
    }
    Ok(())
}
