ghost use Rattle.std.specs.Prelude.{◌≡◌, ◌+◌, ◌<◌, ◌≤◌, IfSome};
ghost use Rattle.als_engine.specs.Formatting.{FormatsWorld};
ghost use Rattle.als_engine.specs.Machine.{Machine};
ghost use Rattle.als_world.specs.Runs.{Run};
ghost use Rattle.als_world.specs.Slots.{no_leases};
ghost use Rattle.als_world.specs.Standing.{Standing, Up, Shows, Keeps, IsTrue};

use super::standby::CONFIG;
use super::text::TEXT;
use als_disk::{FailingDisk, Fuse, MemDisk, Restart};
use als_engine::{Config, Disks, Fault, Fed, FeedFault, Reply, Step};
use als_record::Lsn;
use als_world::{World, WorldReply, WorldStep, run};
use std::alloc::{AllocError, Global};
use std::sync::Wait;

type Disk = FailingDisk<MemDisk>;

/// Devices in memory, and what makes the control device fail.
fn devices(alloc: Global) -> Result<(Disks<Disk>, Fuse), AllocError> {
    let control = Fuse::new(alloc)?;
    let disks = Disks {
        log: FailingDisk::new(MemDisk::new(alloc, 8), Fuse::new(alloc)?),
        control: FailingDisk::new(MemDisk::new(alloc, 321), control.clone()?),
        pages: FailingDisk::new(MemDisk::new(alloc, 4), Fuse::new(alloc)?),
    };
    Ok((disks, control))
}

/// A world with a new standby, of which a call of the control device fails. None: memory was
/// refused.
fn world<R: Wait>(alloc: Global, rt: &R, failing: u64) -> Option<World<Disk>>
    requires { 0 < failing }
{
    let Ok((disks, fuse)) = devices(alloc) else {
        return None;
    };
    match World::format(alloc, rt, disks, CONFIG, 2) {
        Ok(world) => {
            fuse.fail_at(failing);
            Some(world)
        }
        Err(_) => None,
    }
}

/// The theorem, from its beginning: a new database over these devices, and a run of it. None:
/// allocation failed, or a device failed while it was formatted.
fn run_anew<R: Wait, D: Restart + Drop>(
    alloc: Global,
    rt: &R,
    disks: Disks<D>,
    config: Config,
    workers: usize,
    steps: &[WorldStep],
) -> Option<(World<D>, Vec<WorldReply>)>
    requires some { 1 ≤ workers }
    requires few { workers ≤ 8 }
    ensures headline { IfSome result (λ x. (first : Machine)
        × FormatsWorld config (D.block_count disks.log) (D.block_count disks.pages)
        (D.failures disks.pages) (D.attempts disks.pages)
        (D.failures disks.log + D.failures disks.control + D.failures disks.pages) first
        × ((last : Standing) × Shows D.slot D.block_count x.0 last
        × Run config (Up first (no_leases workers)) steps.now x.1.items last
        × Keeps (Up first (no_leases workers)) last × IsTrue last)) }
{
    match World::format(alloc, rt, disks, config, workers) {
        Ok(world) => match run(alloc, rt, world, steps) {
            Ok(after) => Some(after),
            Err(_) => None,
        },
        Err(_) => None,
    }
}

/// Whether two replies are the same. No reader asks here.
fn is_same(reply: &WorldReply, wanted: &WorldReply) -> bool {
    match (reply, wanted) {
        (WorldReply::Event(reply), WorldReply::Event(wanted)) => reply == wanted,
        (
            WorldReply::Lent { number, batch },
            WorldReply::Lent {
                number: wanted,
                batch: changes,
            },
        ) => number == wanted && batch == changes,
        (WorldReply::Redone(lsn), WorldReply::Redone(wanted)) => lsn == wanted,
        (WorldReply::Done, WorldReply::Done) => true,
        (WorldReply::Restarted(end), WorldReply::Restarted(wanted)) => end == wanted,
        (WorldReply::Refused(fault), WorldReply::Refused(wanted)) => fault == wanted,
        _ => false,
    }
}

/// Whether these are the wanted replies.
fn are_same(replies: &[WorldReply], wanted: &[WorldReply]) -> bool {
    replies.len() == wanted.len()
        && replies
            .iter()
            .zip(wanted.iter())
            .all(|(reply, wanted)| is_same(reply, wanted))
}

/// Whether these replies to the steps are wanted. None: allocation failed.
fn replies<R: Wait>(
    alloc: Global,
    rt: &R,
    failing: u64,
    steps: &[WorldStep],
    wanted: &[WorldReply],
) -> Option<()>
    requires { 0 < failing }
{
    match run(alloc, rt, world(alloc, rt, failing)?, steps) {
        Ok((world, replies)) => {
            drop(world.into_disks(rt));
            if are_same(replies.as_slice(), wanted) {
                Some(())
            } else {
                None
            }
        }
        Err(world) => {
            drop(world.into_disks(rt));
            None
        }
    }
}

/// The reply to a page that was lent.
fn lent(number: u64, batch: usize) -> WorldReply {
    WorldReply::Lent { number, batch }
}

/// A standby is fed and forced, its page is redone by a lease, and then it is crashed: with the
/// older page; while its page is lent; and with the newer page. Then a sync of the control device
/// fails in the restart, and the world is down until the next crash. Once it is ready it takes the
/// rest of the log.
fn restarts<R: Wait>(alloc: Global, rt: &R) -> Option<()> {
    let steps = [
        WorldStep::Event(Step::Feed(&TEXT[..100])),
        WorldStep::Event(Step::LogWrite),
        WorldStep::Event(Step::LogSync),
        WorldStep::Event(Step::MarkWrite),
        WorldStep::Event(Step::ControlSync),
        WorldStep::Lend(0, 0),
        WorldStep::Redo(0),
        WorldStep::Hand(0, 1),
        WorldStep::Redo(1),
        WorldStep::Redo(1),
        WorldStep::Give(1),
        WorldStep::Event(Step::Flush(0)),
        WorldStep::Crash(&[]),
        WorldStep::Lend(0, 1),
        WorldStep::Drop(1),
        WorldStep::Event(Step::Flush(0)),
        WorldStep::Event(Step::Recall(0)),
        WorldStep::Lend(0, 1),
        WorldStep::Redo(1),
        WorldStep::Crash(&[]),
        WorldStep::Redo(1),
        WorldStep::Lend(0, 0),
        WorldStep::Redo(0),
        WorldStep::Redo(0),
        WorldStep::Give(0),
        WorldStep::Event(Step::Flush(0)),
        WorldStep::Crash(&[255]),
        WorldStep::Lend(0, 0),
        WorldStep::Crash(&[]),
        WorldStep::Event(Step::LogWrite),
        WorldStep::Redo(0),
        WorldStep::Crash(&[]),
        WorldStep::Event(Step::Feed(&TEXT[100..137])),
        WorldStep::Event(Step::Ready),
        WorldStep::Lend(0, 0),
        WorldStep::Event(Step::Ready),
        WorldStep::Event(Step::Feed(&TEXT[100..137])),
    ];
    let fed = Fed {
        taken: 100,
        records: 3,
    };
    let recovering = FeedFault {
        taken: 0,
        records: 0,
        fault: Fault::Recovering,
    };
    let rest = Fed {
        taken: 37,
        records: 1,
    };
    let wanted = [
        WorldReply::Event(Reply::Fed(fed)),
        WorldReply::Event(Reply::Done),
        WorldReply::Event(Reply::Done),
        WorldReply::Event(Reply::Done),
        WorldReply::Event(Reply::Acknowledged(Lsn(116))),
        lent(1, 2),
        WorldReply::Redone(Lsn(16)),
        WorldReply::Done,
        WorldReply::Redone(Lsn(80)),
        WorldReply::Refused(Fault::NothingToDo),
        WorldReply::Done,
        WorldReply::Event(Reply::Done),
        WorldReply::Restarted(Lsn(116)),
        lent(1, 2),
        WorldReply::Done,
        WorldReply::Event(Reply::Refused(Fault::PageLent)),
        WorldReply::Event(Reply::Done),
        lent(2, 2),
        WorldReply::Redone(Lsn(16)),
        WorldReply::Restarted(Lsn(116)),
        WorldReply::Refused(Fault::BadSlot),
        lent(1, 2),
        WorldReply::Redone(Lsn(16)),
        WorldReply::Redone(Lsn(80)),
        WorldReply::Done,
        WorldReply::Event(Reply::Done),
        WorldReply::Restarted(Lsn(116)),
        WorldReply::Refused(Fault::NothingToDo),
        WorldReply::Refused(Fault::Device),
        WorldReply::Refused(Fault::Stopped),
        WorldReply::Refused(Fault::Stopped),
        WorldReply::Restarted(Lsn(116)),
        WorldReply::Event(Reply::FeedRefused(recovering)),
        WorldReply::Event(Reply::Refused(Fault::NotDrained)),
        WorldReply::Refused(Fault::NothingToDo),
        WorldReply::Event(Reply::Done),
        WorldReply::Event(Reply::Fed(rest)),
    ];
    // The steps make two calls of the control device, and each restart two: the ninth is the fourth
    // restart's sync.
    replies(alloc, rt, 9, &steps, &wanted)
}

/// A new database is fed, forced and crashed, and its log is there again.
fn begins_anew<R: Wait>(alloc: Global, rt: &R) -> Option<()> {
    let disks = Disks {
        log: MemDisk::new(alloc, 8),
        control: MemDisk::new(alloc, 321),
        pages: MemDisk::new(alloc, 4),
    };
    let steps = [
        WorldStep::Event(Step::Feed(&TEXT[..100])),
        WorldStep::Event(Step::LogWrite),
        WorldStep::Event(Step::LogSync),
        WorldStep::Event(Step::MarkWrite),
        WorldStep::Event(Step::ControlSync),
        WorldStep::Crash(&[]),
    ];
    let (world, replies) = run_anew(alloc, rt, disks, CONFIG, 2, &steps)?;
    drop(world.into_disks(rt));
    match replies.as_slice().last() {
        Some(WorldReply::Restarted(Lsn(116))) => Some(()),
        _ => None,
    }
}

#[test]
fn a_new_database_is_run(rt: HostRuntime) {
    assert!(rt; begins_anew(rt.alloc(), &rt).is_some() || begins_anew(rt.alloc(), &rt).is_some());
}

#[test]
fn a_world_is_crashed_and_begins_again(rt: HostRuntime) {
    assert!(rt; restarts(rt.alloc(), &rt).is_some() || restarts(rt.alloc(), &rt).is_some());
}
