use crate::disk::Disk;
use als_engine::{Decision, Fault, FeedFault, Reply, Status, Step};
use als_record::{Lsn, TransId};
use als_script::{LeaseLine, StepLine};
use als_world::{World, WorldReply, WorldStep, run};
use std::alloc::Global;
use std::slice;
use std::sync::Wait;

/// The event of a line; None where it names bytes that the text has not.
pub fn step_of(line: StepLine, text: &[u8]) -> Option<WorldStep<'_>> {
    Some(WorldStep::Event(match line {
        StepLine::Feed { from, to } => {
            let from = usize::try_from(from).ok()?;
            let to = usize::try_from(to).ok()?;
            Step::Feed(text.get(from..to)?)
        }
        StepLine::Resync => Step::Resync,
        StepLine::Recall { page } => Step::Recall(page),
        StepLine::Flush { page } => Step::Flush(page),
        StepLine::SyncPages => Step::SyncPages,
        StepLine::LogWrite => Step::LogWrite,
        StepLine::LogSync => Step::LogSync,
        StepLine::MarkWrite => Step::MarkWrite,
        StepLine::ControlSync => Step::ControlSync,
        StepLine::CkptBegin => Step::CkptBegin,
        StepLine::CkptBlock => Step::CkptBlock,
        StepLine::CkptPublish => Step::CkptPublish,
        StepLine::PublishView => Step::PublishView,
        StepLine::Ready => Step::Ready,
        StepLine::Adopt(history) => Step::Adopt(history),
        StepLine::Seal => Step::Seal,
        StepLine::UndoOne => Step::UndoOne,
        StepLine::Finish => Step::Finish,
        StepLine::Resolve { trans, is_commit } => Step::Resolve(TransId(trans), verdict(is_commit)),
    }))
}

/// What becomes of a transaction in doubt.
fn verdict(is_commit: bool) -> Decision {
    if is_commit {
        Decision::Commit
    } else {
        Decision::Rollback
    }
}

/// The step of a line over a worker slot.
pub fn lease_step(line: LeaseLine) -> WorldStep<'static> {
    match line {
        LeaseLine::Lend { page, slot } => WorldStep::Lend(page, slot as usize),
        LeaseLine::Redo { slot } => WorldStep::Redo(slot as usize),
        LeaseLine::Hand { from, to } => WorldStep::Hand(from as usize, to as usize),
        LeaseLine::Give { slot } => WorldStep::Give(slot as usize),
        LeaseLine::Drop { slot } => WorldStep::Drop(slot as usize),
    }
}

/// Runs one step. Where there is no memory for its reply nothing is run, and the step counts as
/// refused.
pub fn one_step<R: Wait>(
    alloc: Global,
    rt: &R,
    world: World<Disk>,
    step: &WorldStep,
) -> (World<Disk>, WorldReply) {
    match run(alloc, rt, world, slice::from_ref(step)) {
        Ok((world, mut replies)) => {
            let reply = replies.pop();
            (world, reply.unwrap_or(WorldReply::Refused(Fault::Memory)))
        }
        Err(world) => (world, WorldReply::Refused(Fault::Memory)),
    }
}

/// Runs one event. A world that is down refuses it.
pub fn one_event<R: Wait>(
    alloc: Global,
    rt: &R,
    world: World<Disk>,
    event: &WorldStep,
) -> (World<Disk>, Reply) {
    let (world, reply) = one_step(alloc, rt, world, event);
    let reply = match reply {
        WorldReply::Event(reply) => reply,
        WorldReply::Refused(fault) => refused(event, fault),
        _ => Reply::Done, // No event is answered so.
    };
    (world, reply)
}

/// An event's reply where nothing of it was done.
fn refused(event: &WorldStep, fault: Fault) -> Reply {
    match event {
        WorldStep::Event(Step::Feed(_)) => Reply::FeedRefused(FeedFault {
            taken: 0,
            records: 0,
            fault,
        }),
        _ => Reply::Refused(fault),
    }
}

/// What the standby tells of itself; None while the world is down.
pub fn status_of(world: &World<Disk>) -> Option<Status> {
    Some(world.engine()?.status())
}

/// Where the held log ends; 0 while the world is down.
pub fn end_of(world: &World<Disk>) -> Lsn {
    match world.engine() {
        Some(engine) => engine.status().end,
        None => Lsn(0),
    }
}
