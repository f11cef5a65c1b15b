ghost use Rattle.std.specs.Prelude.{◌≡◌, ◌<◌};
ghost use Rattle.crossbeam_channel.specs.Claims.{view};
ghost use Rattle.als_workers.specs.Passes.{IsPassOf};

use als_workers::{HandOff, Job, Pass};
use std::alloc::Global;
use std::sync::Wait;
use std::sync::atomic::{AtomicU64, Ordering};
use std::thread;
use std::thread::Threads;

/// The queue holds as many jobs.
const CAPACITY: u64 = 64;

/// The other thread gets this number of turns to go too far.
const TURNS: u64 = 1_000;

/// A wait for the other thread ends after this number of turns.
const LIMIT: u64 = 100_000_000;

/// Puts a stop.
fn put_one<R: Wait>(rt: &R, queue: &HandOff, pass: &mut Pass) -> Option<()>
    requires queue { IsPassOf queue.now pass.old }
    requires parts { 0 < (view pass.old).parts }
    ensures queue { IsPassOf queue.now pass.new }
    ensures parts { (view pass.new).parts ≡ (view pass.old).parts }
{
    queue.put(rt, pass, Job::Stop).ok()
}

/// Takes a job.
fn take_one<R: Wait>(rt: &R, queue: &HandOff, pass: &mut Pass) -> Option<()>
    requires queue { IsPassOf queue.now pass.old }
    requires parts { 0 < (view pass.old).parts }
    ensures queue { IsPassOf queue.now pass.new }
    ensures parts { (view pass.new).parts ≡ (view pass.old).parts }
{
    queue.take(rt, pass)?;
    Some(())
}

/// A pass, with its queue.
#[derive(Drop)]
struct Seat<'a> {
    queue: &'a HandOff,
    pass: Pass,
    ghost mine: { IsPassOf queue.now pass × (0 < (view pass).parts) },
}

impl<'a> Seat<'a> {
    fn new(queue: &'a HandOff, pass: Pass) -> Seat<'a>
        requires { IsPassOf queue.now pass × (0 < (view pass).parts) }
    {
        Seat { queue, pass }
    }

    /// Puts one job more than the queue holds, and counts those that it put.
    fn fill<R: Wait>(self, rt: &R, put: &AtomicU64) {
        let Seat { queue, pass } = self;
        let mut pass = pass;
        for _ in 0..=CAPACITY {
            if put_one(rt, queue, &mut pass).is_some() {
                put.fetch_add(1, Ordering::SeqCst);
            }
        }
    }

    /// Takes all jobs, once the other thread is at its last put. Whether that put was not done before
    /// the first take.
    fn empty<R: Wait>(self, rt: &R, put: &AtomicU64) -> bool {
        let Seat { queue, pass } = self;
        let mut pass = pass;
        await_last(queue);
        give_turns();
        let is_held = put.load(Ordering::SeqCst) == CAPACITY;
        let mut taken: u64 = 0;
        for _ in 0..=CAPACITY {
            if take_one(rt, queue, &mut pass).is_some() {
                taken = taken.saturating_add(1);
            }
        }
        is_held && taken == CAPACITY + 1
    }
}

/// Waits until the other thread is inside the put that finds the queue full: a job is counted as its
/// put begins.
fn await_last(queue: &HandOff) {
    for _ in 0..LIMIT {
        if queue.jobs() > CAPACITY {
            break;
        }
        thread::yield_now();
    }
}

/// Gives way to the other thread.
fn give_turns() {
    for _ in 0..TURNS {
        thread::yield_now();
    }
}

/// A thread fills a queue and another one empties it. Whether the put into the full queue waited.
fn give_way<R: Threads + Wait + Sync>(rt: &R, alloc: Global) -> Option<bool> {
    let (queue, mut pass) = HandOff::new(alloc).ok()?;
    let other = queue.cut(&mut pass);
    let (one, two) = (Seat::new(&queue, pass), Seat::new(&queue, other));
    let put = AtomicU64::new(0);
    let count = &put;
    let (_, is_held) = thread::join(
        rt,
        move || one.fill(rt, count),
        move || two.empty(rt, count),
    );
    Some(is_held && put.load(Ordering::SeqCst) == CAPACITY + 1 && queue.jobs() == 0)
}

#[test]
fn hand_off_gives_way(rt: HostRuntime) {
    let alloc = rt.alloc();
    assert!(rt; give_way(&rt, alloc) == Some(true) || give_way(&rt, alloc) == Some(true));
}
