use crate::disk::Disk;
use crate::stepping::{end_of, one_event, one_step};
use als_engine::{Fault, Reply, State, Step};
use als_record::BLOCK_LEN;
use als_world::{World, WorldReply, WorldStep};
use std::alloc::Global;
use std::sync::Wait;

/// What follows the writes of the log where it is acknowledged.
const STEPS_BEHIND_THE_LOG: [WorldStep; 3] = [
    WorldStep::Event(Step::LogSync),
    WorldStep::Event(Step::MarkWrite),
    WorldStep::Event(Step::ControlSync),
];

/// Makes all that is held certain to survive a crash: writes and syncs the log, and then the
/// control block. Answers what is acknowledged, or the first refusal that is not passed over, after
/// which it stops.
pub fn force<R: Wait>(alloc: Global, rt: &R, world: World<Disk>) -> (World<Disk>, Reply) {
    let (mut world, mut reply) = write_log(alloc, rt, world);
    for step in &STEPS_BEHIND_THE_LOG {
        if is_refusal(&reply) {
            break;
        }
        let (after, answer) = one_event(alloc, rt, world, step);
        world = after;
        reply = answer;
    }
    (world, reply)
}

/// Writes each block of the log that has unwritten bytes.
fn write_log<R: Wait>(alloc: Global, rt: &R, world: World<Disk>) -> (World<Disk>, Reply) {
    let mut world = world;
    // There is no block past that of the log's end.
    for _ in 0..=end_of(&world).0 / BLOCK_LEN as u64 {
        let (after, reply) = one_event(alloc, rt, world, &WorldStep::Event(Step::LogWrite));
        world = after;
        if reply != Reply::Done {
            return (world, reply);
        }
    }
    (world, Reply::Done)
}

/// Redoes each page that has pending changes, in rising order, and again until nothing is pending.
/// Answers the first refusal that is not passed over, after which it stops: Stopped while the world
/// is down, BadSlot where slot 0 has a lease.
pub fn drain<R: Wait>(alloc: Global, rt: &R, world: World<Disk>) -> (World<Disk>, Reply) {
    let Some(engine) = world.engine() else {
        return (world, Reply::Refused(Fault::Stopped));
    };
    let pending = engine.status().pending;
    let mut world = world;
    // Each round takes one change at least.
    for _ in 0..pending {
        if next_pending(&world, 0).is_none() {
            break;
        }
        let (after, reply) = redo_each(alloc, rt, world);
        world = after;
        if is_refusal(&reply) {
            return (world, reply);
        }
    }
    (world, Reply::Done)
}

/// One round: each page that has pending changes, once.
fn redo_each<R: Wait>(alloc: Global, rt: &R, world: World<Disk>) -> (World<Disk>, Reply) {
    let mut world = world;
    let mut from = 0;
    for _ in 0..world.config().pages {
        let Some(page) = next_pending(&world, from) else {
            break;
        };
        let (after, reply) = redo_page(alloc, rt, world, page);
        world = after;
        if is_refusal(&reply) {
            return (world, reply);
        }
        from = page.saturating_add(1);
    }
    (world, Reply::Done)
}

/// Lends a page to slot 0, redoes the lease, and gives it back.
fn redo_page<R: Wait>(
    alloc: Global,
    rt: &R,
    world: World<Disk>,
    page: u32,
) -> (World<Disk>, Reply) {
    let (world, reply) = one_step(alloc, rt, world, &WorldStep::Lend(page, 0));
    let batch = match reply {
        WorldReply::Lent { batch, .. } => batch,
        reply => return (world, answer(reply)),
    };
    let (world, reply) = redo_lease(alloc, rt, world, batch);
    if is_refusal(&reply) {
        return (world, reply);
    }
    let (world, reply) = one_step(alloc, rt, world, &WorldStep::Give(0));
    (world, answer(reply))
}

/// Redoes so many changes of the lease in slot 0.
fn redo_lease<R: Wait>(
    alloc: Global,
    rt: &R,
    world: World<Disk>,
    batch: usize,
) -> (World<Disk>, Reply) {
    let mut world = world;
    for _ in 0..batch {
        let (after, reply) = one_step(alloc, rt, world, &WorldStep::Redo(0));
        world = after;
        let reply = answer(reply);
        if reply != Reply::Done {
            return (world, reply);
        }
    }
    (world, Reply::Done)
}

/// The reply to a step over a worker slot, as far as it is a refusal.
fn answer(reply: WorldReply) -> Reply {
    match reply {
        WorldReply::Refused(fault) => Reply::Refused(fault),
        _ => Reply::Done,
    }
}

/// The first page from there on with pending changes.
fn next_pending(world: &World<Disk>, from: u32) -> Option<u32> {
    world.engine()?.next_pending(from)
}

/// A part of a takeover.
#[derive(Clone, Copy)]
enum Part {
    Drain,
    Ready,
    Force,
    Seal,
    Undo,
    Finish,
}

/// The parts of a takeover, in order.
const PARTS: [Part; 8] = [
    Part::Drain,
    Part::Ready,
    Part::Force,
    Part::Seal,
    Part::Undo,
    Part::Force,
    Part::Drain,
    Part::Finish,
];

/// Takes over: seals the log once all of it is stable, undoes what was not committed, and ends the
/// takeover once that is stable and redone. A standby that is recovering is made ready first.
/// Answers the first refusal that is not passed over, after which it stops.
pub fn takeover<R: Wait>(alloc: Global, rt: &R, world: World<Disk>) -> (World<Disk>, Reply) {
    let mut world = world;
    for part in PARTS {
        let (after, reply) = do_part(alloc, rt, world, part);
        world = after;
        if is_refusal(&reply) {
            return (world, reply);
        }
    }
    (world, Reply::Done)
}

/// One part of a takeover.
fn do_part<R: Wait>(alloc: Global, rt: &R, world: World<Disk>, part: Part) -> (World<Disk>, Reply) {
    match part {
        Part::Drain => drain(alloc, rt, world),
        Part::Ready => ready(alloc, rt, world),
        Part::Force => force(alloc, rt, world),
        Part::Seal => seal(alloc, rt, world),
        Part::Undo => undo(alloc, rt, world),
        Part::Finish => finish(alloc, rt, world),
    }
}

/// What the standby is doing; Stopped also while the world is down.
fn state(world: &World<Disk>) -> State {
    match world.engine() {
        Some(engine) => engine.status().state,
        None => State::Stopped,
    }
}

/// Ends the recovery, where it was not ended.
fn ready<R: Wait>(alloc: Global, rt: &R, world: World<Disk>) -> (World<Disk>, Reply) {
    match state(&world) {
        State::Recovering => one_event(alloc, rt, world, &WorldStep::Event(Step::Ready)),
        _ => (world, Reply::Done),
    }
}

/// Seals the log, where it was not sealed.
fn seal<R: Wait>(alloc: Global, rt: &R, world: World<Disk>) -> (World<Disk>, Reply) {
    match state(&world) {
        State::Recovering | State::Following | State::Refusing { .. } => {
            step_and_sync(alloc, rt, world, &WorldStep::Event(Step::Seal))
        }
        State::Sealed | State::Primary | State::Stopped => (world, Reply::Done),
    }
}

/// Holds each record of the log's tail.
fn undo<R: Wait>(alloc: Global, rt: &R, world: World<Disk>) -> (World<Disk>, Reply) {
    let mut world = world;
    // A tail has at most two records for each one of the log, and each of these takes 28 bytes and
    // more.
    for _ in 0..end_of(&world).0 {
        let (after, reply) = one_event(alloc, rt, world, &WorldStep::Event(Step::UndoOne));
        world = after;
        match reply {
            Reply::Undone(_) => {}
            reply => return (world, reply),
        }
    }
    (world, Reply::Done)
}

/// Ends the takeover, where it was not ended.
fn finish<R: Wait>(alloc: Global, rt: &R, world: World<Disk>) -> (World<Disk>, Reply) {
    match state(&world) {
        State::Primary => (world, Reply::Done),
        _ => step_and_sync(alloc, rt, world, &WorldStep::Event(Step::Finish)),
    }
}

/// A step that writes the control block, and the sync of it.
fn step_and_sync<R: Wait>(
    alloc: Global,
    rt: &R,
    world: World<Disk>,
    step: &WorldStep,
) -> (World<Disk>, Reply) {
    let (world, reply) = one_event(alloc, rt, world, step);
    if is_refusal(&reply) {
        return (world, reply);
    }
    one_event(alloc, rt, world, &WorldStep::Event(Step::ControlSync))
}

/// Whether a reply ends a combined line: a step that had nothing to do is passed over.
fn is_refusal(reply: &Reply) -> bool {
    match reply {
        Reply::Refused(Fault::NothingToDo) => false,
        Reply::Refused(_) | Reply::FeedRefused(_) => true,
        _ => false,
    }
}
