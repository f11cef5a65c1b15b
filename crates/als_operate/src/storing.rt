ghost use Rattle.std.specs.Prelude.{◌≡◌, OnOk, IfErr};
ghost use Rattle.als_ship.specs.Follows.{SameText};
ghost use Rattle.als_operate.specs.Upkeep.{IsCheckpointed, StoreRefused};

use crate::checkpointing::checkpoint;
use als_engine::{Events, Fault};

/// Puts the pages on their device and takes a checkpoint, so that a restart has nothing to redo
/// from before. The log was forced. The first refusal ends it.
#[tactic(auto, using(als_ship::proofs::LogForcing::same_trans, crate::proofs::Keeping::sync_same, crate::proofs::Refusing::sync_refused, crate::proofs::Refusing::checkpoint_refused))]
pub(crate) fn store<E: Events>(events: &mut E) -> Result<(), Fault>
    // Then the published checkpoint is that of the whole held log.
    ensures taken { OnOk result (E.alone → IsCheckpointed (E.machine events.new)) }
    ensures same { E.alone → SameText (E.machine events.old) (E.machine events.new) }
    ensures fails { IfErr result (λ f. E.alone → StoreRefused f (E.machine events.new)) }
{
    flush_pages(events)?;
    events.sync_pages()?;
    checkpoint(events)?;
    Ok(())
}

/// Writes each dirty page to its block.
#[tactic(auto, using(als_ship::proofs::LogForcing::same_refl, als_ship::proofs::LogForcing::same_trans))]
fn flush_pages<E: Events>(events: &mut E) -> Result<(), Fault>
    ensures same { E.alone → SameText (E.machine events.old) (E.machine events.new) }
    ensures fails { IfErr result (λ f. E.alone → StoreRefused f (E.machine events.new)) }
{
    let mut from = 0;
    for _ in 0..events.pages() {
        let Some(row) = events.dirty(from) else {
            break;
        };
        flush_page(events, row.page)?;
        from = row.page.saturating_add(1);
    }
    Ok(())
}

/// Writes a dirty page to its block. A page whose image was written before is passed over.
#[tactic(auto, using(crate::proofs::Keeping::flush_same, crate::proofs::Refusing::flush_refused))]
fn flush_page<E: Events>(events: &mut E, page: u32) -> Result<(), Fault>
    ensures same { E.alone → SameText (E.machine events.old) (E.machine events.new) }
    ensures fails { IfErr result (λ f. E.alone → StoreRefused f (E.machine events.new)) }
{
    match events.flush(page) {
        Ok(()) => Ok(()),
        Err(Fault::NothingToDo) => Ok(()),
        Err(fault) => Err(fault),
    }
}
