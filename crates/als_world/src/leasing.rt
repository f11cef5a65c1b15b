// Steps over worker slots. A slot that does not allow its step refuses it before the engine is asked.
ghost use Rattle.std.specs.Prelude.{◌≡◌};
ghost use Rattle.als_engine.specs.Machine.{Keeps as EngineKeeps};
ghost use Rattle.als_world.specs.declared.step.WorldStep.TheVariants as step;
ghost use Rattle.als_world.specs.Leasing.{BySlot, LendsInto, RedoesIn, HandsOver, GivesFrom};
ghost use Rattle.als_world.specs.Leasing.{DropsFrom};

use crate::slots::Slots;
use crate::step::WorldReply;
use als_disk::BlockDisk;
use als_engine::{Engine, Fault};

/// Lends a page into a slot.
pub(crate) fn lend<D: BlockDisk>(
    engine: &mut Engine<D>,
    slots: &mut Slots,
    page: u32,
    to: usize,
) -> WorldReply
    ensures lends { BySlot slots.old (step.Lend page to) result
        (LendsInto engine.old.machine slots.old page to result engine.new.machine slots.new)
        ((engine.new.machine ≡ engine.old.machine) × (slots.new ≡ slots.old)) }
    ensures keeps { EngineKeeps engine.old.machine engine.new.machine }
    ensures book { engine.new.book ≡ engine.old.book }
{
    if !slots.is_free(to) {
        return WorldReply::Refused(Fault::BadSlot);
    }
    match engine.lend(page) {
        Ok(lease) => {
            let number = lease.number();
            let batch = lease.batch().len();
            slots.put(to, lease);
            WorldReply::Lent { number, batch }
        }
        Err(fault) => WorldReply::Refused(fault),
    }
}

/// Redoes the next change of the lease in a slot.
#[tactic(auto, using(crate::proofs::SlotLaws::put_over, crate::proofs::SlotLaws::put_back))]
pub(crate) fn redo(slots: &mut Slots, at: usize) -> WorldReply
    ensures { BySlot slots.old (step.Redo at) result (RedoesIn slots.old at result slots.new)
        (slots.new ≡ slots.old) }
{
    let Some(lease) = slots.take(at) else {
        return WorldReply::Refused(Fault::BadSlot);
    };
    let mut lease = lease;
    if !lease.redo_next() {
        slots.put(at, lease);
        return WorldReply::Refused(Fault::NothingToDo);
    }
    let lsn = lease.working().lsn();
    slots.put(at, lease);
    WorldReply::Redone(lsn)
}

/// Moves a lease to another slot.
pub(crate) fn hand(slots: &mut Slots, from: usize, to: usize) -> WorldReply
    ensures { BySlot slots.old (step.Hand from to) result
        (HandsOver slots.old from to result slots.new) (slots.new ≡ slots.old) }
{
    if !slots.is_free(to) {
        return WorldReply::Refused(Fault::BadSlot);
    }
    let Some(lease) = slots.take(from) else {
        return WorldReply::Refused(Fault::BadSlot);
    };
    slots.put(to, lease);
    WorldReply::Done
}

/// Gives the lease in a slot back to the engine. A lease that the engine refuses stays in its slot.
pub(crate) fn give<D: BlockDisk>(
    engine: &mut Engine<D>,
    slots: &mut Slots,
    from: usize,
) -> WorldReply
    ensures gives { BySlot slots.old (step.Give from) result
        (GivesFrom engine.old.machine slots.old from result engine.new.machine slots.new)
        ((engine.new.machine ≡ engine.old.machine) × (slots.new ≡ slots.old)) }
    ensures keeps { EngineKeeps engine.old.machine engine.new.machine }
    ensures book { engine.new.book ≡ engine.old.book }
{
    let Some(lease) = slots.take(from) else {
        return WorldReply::Refused(Fault::BadSlot);
    };
    match engine.give(lease) {
        Ok(()) => WorldReply::Done,
        Err(refused) => {
            let fault = refused.fault;
            slots.put(from, refused.into_lease());
            WorldReply::Refused(fault)
        }
    }
}

/// Drops the lease in a slot.
pub(crate) fn discard(slots: &mut Slots, from: usize) -> WorldReply
    ensures { BySlot slots.old (step.Drop from) result (DropsFrom slots.old from result slots.new)
        (slots.new ≡ slots.old) }
{
    let Some(lease) = slots.take(from) else {
        return WorldReply::Refused(Fault::BadSlot);
    };
    drop(lease);
    WorldReply::Done
}
