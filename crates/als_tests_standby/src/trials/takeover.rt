use super::standby::{Act, holds_page, take};
use als_disk::MemDisk;
use als_engine::{Engine, Fault, Reply, State, Step};
use als_record::Lsn;
use std::process::Abort;
use std::sync::Wait;

/// What a takeover takes, of this log at most four records of the tail, which stand in one block.
const REST: [Act; 11] = [
    Act::Step(Step::UndoOne),
    Act::Step(Step::UndoOne),
    Act::Step(Step::UndoOne),
    Act::Step(Step::UndoOne),
    Act::Step(Step::LogWrite),
    Act::Step(Step::LogSync),
    Act::Step(Step::MarkWrite),
    Act::Step(Step::ControlSync),
    Act::Redo(0),
    Act::Step(Step::Finish),
    Act::Step(Step::ControlSync),
];

/// Makes those of the acts that have something to do. None: allocation failed, also to a device;
/// nothing else refuses one.
fn take_due<R: Wait + Abort>(rt: &R, engine: &mut Engine<MemDisk>, acts: &[Act]) -> Option<()> {
    for act in acts {
        if let Reply::Refused(fault) = act.over(rt, engine) {
            if fault == Fault::Memory || fault == Fault::Device {
                return None;
            }
            assert!(rt; fault == Fault::NothingToDo, "{act:?} was refused: {fault}");
        }
    }
    Some(())
}

/// Ends a recovery. A log that was not sealed before is sealed then. None: allocation failed.
fn seal<R: Wait + Abort>(rt: &R, engine: &mut Engine<MemDisk>) -> Option<()> {
    assert!(rt; engine.status().state == State::Recovering);
    assert!(rt; engine.step(rt, &Step::UndoOne) == Reply::Refused(Fault::Recovering));
    take(rt, engine, &[Act::Step(Step::Ready)])?;
    if engine.status().state == State::Following {
        let seal = [Act::Step(Step::Seal), Act::Step(Step::ControlSync)];
        take(rt, engine, &seal)?;
    }
    let state = engine.status().state;
    assert!(rt; state == State::Sealed || state == State::Primary);
    Some(())
}

/// Where a log with its tail ends, by where the log ends. That of the first three records has a
/// tail of its own.
fn taken_over(end: Lsn) -> Lsn {
    match end.0 {
        16 => Lsn(16),
        116 => Lsn(214),
        _ => Lsn(294),
    }
}

/// A standby that has begun again and has redone its log takes over, and then holds the tail and
/// the page that it makes. None: allocation failed.
pub fn takes_over<R: Wait + Abort>(rt: &R, engine: &mut Engine<MemDisk>) -> Option<()> {
    let end = taken_over(engine.status().end);
    seal(rt, engine)?;
    take_due(rt, engine, &REST)?;
    let status = engine.status();
    assert!(rt; status.state == State::Primary);
    assert!(rt; status.end == end);
    assert!(rt; status.acknowledged == end);
    assert!(rt; engine.table().len() == 0);
    holds_page(rt, engine, end)
}
