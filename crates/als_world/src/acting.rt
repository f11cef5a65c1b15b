ghost use Rattle.std.specs.Prelude.{◌≡◌, false};
ghost use Rattle.als_engine.specs.Machine.{Keeps as EngineKeeps};
ghost use Rattle.als_engine.specs.Readers.{IsReader};
ghost use Rattle.als_world.specs.Runs.{Acts, AnswersRead, is_crash};

use crate::leasing::{discard, give, hand, lend, redo};
use crate::slots::Slots;
use crate::step::{WorldReply, WorldStep};
use als_disk::BlockDisk;
use als_engine::{Engine, Reader};
use als_record::Key;
use std::sync::Wait;

/// What a reader of a standby is answered.
fn read<D: BlockDisk>(engine: &Engine<D>, reader: &mut Reader, key: Key) -> WorldReply
    requires { IsReader engine.now.book engine.now.machine.held.pages reader.old }
    ensures answers { AnswersRead engine.now.machine key result }
    ensures reader { IsReader engine.now.book engine.now.machine.held.pages reader.new }
{
    match engine.read(reader, key) {
        Ok(answer) => WorldReply::Answered(answer),
        Err(fault) => WorldReply::Refused(fault),
    }
}

/// One step of an engine that stays up, by a reader of it where the step reads.
pub(crate) fn act<R: Wait, D: BlockDisk>(
    rt: &R,
    engine: &mut Engine<D>,
    reader: &mut Reader,
    slots: &mut Slots,
    step: &WorldStep,
) -> WorldReply
    requires stays { is_crash step.now ≡ false }
    requires reader { IsReader engine.old.book engine.old.machine.held.pages reader.old }
    ensures acts { Acts engine.old.machine slots.old step.now result engine.new.machine slots.new }
    ensures keeps { EngineKeeps engine.old.machine engine.new.machine }
    // The reader stays one of this engine.
    ensures book { engine.new.book ≡ engine.old.book }
    ensures reader { IsReader engine.old.book engine.old.machine.held.pages reader.new }
{
    match step {
        WorldStep::Event(event) => WorldReply::Event(engine.step(rt, event)),
        WorldStep::Read(key) => read(engine, reader, *key),
        WorldStep::Lend(page, to) => lend(engine, slots, *page, *to),
        WorldStep::Redo(at) => redo(slots, *at),
        WorldStep::Hand(from, to) => hand(slots, *from, *to),
        WorldStep::Give(from) => give(engine, slots, *from),
        WorldStep::Drop(from) => discard(slots, *from),
        WorldStep::Crash(_) => unreachable!(), // The caller's crash is no such step.
    }
}
