ghost use Rattle.std.specs.Prelude.{◌≡◌, ◌+◌, ◌<◌, ◌≤◌, vec_len, Some, true};
ghost use Rattle.crossbeam_channel.specs.Claims.{view};
ghost use Rattle.als_workers.specs.Rule.{new_pass};
ghost use Rattle.als_workers.specs.Passes.{IsPassOf};
ghost use Rattle.als_share.specs.Ledgers.{AreNamed};

use crate::pace::Pace;
use crate::seats::{Dispatcher, Done, Helper, Job, Seat, Worker};
use als_engine::Events;
use als_share::{Blanks, Counts, Handle, Ledgers, Settled, Share, Shared, settle, share};
use als_workers::{HandOff, Pass};
use std::alloc::Global;
use std::marker::Brand;
use std::sync::Wait;
use std::thread;
use std::thread::Threads;

/// Beside the workers: a dispatcher, a feeder, a flusher, a checkpointer and a forcer.
const OTHERS: usize = 5;

/// What threads do with a standby.
#[derive(Clone, Copy)]
pub(crate) struct Plan<'a> {
    /// 1 to 8.
    pub workers: usize,
    /// What is fed, in pieces of so many bytes.
    pub text: &'a [u8],
    pub piece: usize,
    /// Whether the flusher, the checkpointer and the forcer work too.
    pub has_upkeep: bool,
}

/// What the threads of a run have in common.
#[derive(Drop)]
struct Hall<'a, L: Ledgers, E: Events, R: Wait> {
    rt: &'a R,
    alloc: Global,
    shared: &'a Shared<L, E>,
    queue: &'a HandOff,
}

/// A thread with neither a pass nor a lease. `None`: there is no share, or allocation failed.
fn seat_helper<'a, L: Ledgers, E: Events, R: Wait>(
    hall: &Hall<'a, L, E, R>,
    shares: &mut Vec<Share<L>>,
    job: Job<'a>,
    seats: &mut Vec<Seat<'a, Handle<'a, L, E, R>>>,
) -> Option<()> {
    let events = Handle::new(hall.rt, hall.shared, shares.pop()?);
    seats.push(Seat::Help(Helper::new(job, events))).ok()
}

/// All threads but the dispatcher and the workers.
fn seat_helpers<'a, L: Ledgers, E: Events, R: Wait>(
    hall: &Hall<'a, L, E, R>,
    shares: &mut Vec<Share<L>>,
    plan: Plan<'a>,
    seats: &mut Vec<Seat<'a, Handle<'a, L, E, R>>>,
) -> Option<()> {
    seat_helper(hall, shares, Job::Feed(plan.text, plan.piece), seats)?;
    seat_helper(hall, shares, Job::Flush, seats)?;
    seat_helper(hall, shares, Job::Checkpoint, seats)?;
    seat_helper(hall, shares, Job::Force, seats)
}

/// The workers, each with a pass of its own.
fn seat_workers<'a, L: Ledgers, E: Events, R: Wait>(
    hall: &Hall<'a, L, E, R>,
    shares: Vec<Share<L>>,
    pass: &mut Pass,
    seats: &mut Vec<Seat<'a, Handle<'a, L, E, R>>>,
)
    requires queue { IsPassOf hall.now.queue.now pass.old }
    requires parts { vec_len shares < (view pass.old).parts }
    ensures queue { IsPassOf hall.now.queue.now pass.new }
    ensures parts { 0 < (view pass.new).parts }
{
    for share in shares {
        let events = Handle::new(hall.rt, hall.shared, share);
        let mine = hall.queue.cut(pass);
        let worker = Worker::new(hall.queue, mine, events, hall.alloc);
        // Where allocation fails, the share is not among those that come back.
        let _ = seats.push(Seat::Work(worker));
    }
}

/// All threads of a run. `None`: there are too few shares, or allocation failed.
fn seat_all<'a, L: Ledgers, E: Events, R: Wait>(
    hall: &Hall<'a, L, E, R>,
    shares: Vec<Share<L>>,
    pass: Pass,
    plan: Plan<'a>,
) -> Option<Vec<Seat<'a, Handle<'a, L, E, R>>>>
    requires queue { IsPassOf hall.now.queue.now pass × (view pass ≡ new_pass 1024) }
{
    let mut shares = shares;
    let mut pass = pass;
    let mut seats = Vec::new(hall.alloc);
    seat_helpers(hall, &mut shares, plan, &mut seats)?;
    let events = Handle::new(hall.rt, hall.shared, shares.pop()?);
    if shares.len() > 8 {
        return None;
    }
    seat_workers(hall, shares, &mut pass, &mut seats);
    let dispatcher = Dispatcher::new(hall.queue, pass, events, plan.workers);
    seats.push(Seat::Dispatch(dispatcher)).ok()?;
    Some(seats)
}

/// The shares of all threads, and what they did.
fn dismiss<L: Ledgers, E: Events, R: Wait>(
    alloc: Global,
    seats: Vec<Seat<'_, Handle<'_, L, E, R>>>,
) -> Option<(Vec<Share<L>>, Done)> {
    let mut shares = Vec::new(alloc);
    let mut all = Done::by(true);
    for seat in seats {
        let (events, done) = seat.end();
        shares.push(events.end()).ok()?;
        all = all.and(done);
    }
    Some((shares, all))
}

/// Each thread works until the run is closed.
fn work<'a, E: Events + Send, R: Threads + Wait + Sync>(
    rt: &R,
    pace: &Pace<'_, R>,
    seats: &mut Vec<Seat<'a, E>>,
) {
    let threads = seats.len();
    if threads > 0 {
        thread::for_each_mut(
            rt,
            seats.as_mut_slice(),
            threads,
            &|_, seat| { seat.run(rt, pace) },
        );
    }
}

/// A run over an engine that is shared. The engine that is settled comes back, with what the threads
/// did.
fn conduct<L: Ledgers + Send + Sync, E: Counts + Send + Drop, R: Threads + Wait + Sync>(
    rt: &R,
    alloc: Global,
    engine: E,
    plan: Plan<'_>,
    blanks: Blanks,
) -> Option<(E, Done)>
    requires start { L.start ≡ Some (E.machine engine) }
    requires book { L.book ≡ E.book engine }
    requires names { AreNamed L.names blanks.names }
    requires parts { (blanks.parts ≡ L.shares) × (L.shares ≡ plan.workers + 5) }
    requires takes_over { L.takes_over ≡ true }
    requires workers { plan.workers ≤ 8 }
{
    let count = plan.workers + OTHERS;
    let (queue, pass) = HandOff::new(alloc).ok()?;
    let (shared, shares, acknowledger) = share::<L, E>(alloc, engine, count, blanks, true).ok()?;
    let hall = Hall {
        rt,
        alloc,
        shared: &shared,
        queue: &queue,
    };
    let mut seats = seat_all(&hall, shares, pass, plan)?;
    let pace = Pace::new(rt, plan.has_upkeep);
    work(rt, &pace, &mut seats);
    let (mut others, done) = dismiss(alloc, seats)?;
    let mine = others.pop()?;
    if others.len() + 1 != count {
        return None;
    }
    let Settled { engine, touched: _ } = settle(shared, mine, others, acknowledger);
    Some((engine, done))
}

/// The same, over ledgers that are picked here.
pub(crate) fn run<E: Counts + Send + Drop, R: Threads + Wait + Sync>(
    rt: &R,
    alloc: Global,
    engine: E,
    plan: Plan<'_>,
) -> Option<(E, Done)>
    requires workers { plan.workers ≤ 8 }
{
    let blanks = Blanks::new(plan.workers as u64 + 5);
    conduct::<Brand, E, R>(rt, alloc, engine, plan, blanks)
}
