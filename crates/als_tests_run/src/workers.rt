ghost use Rattle.std.specs.Prelude.{◌≡◌, ◌<◌, Some, true};
ghost use Rattle.crossbeam_channel.specs.Claims.{view};
ghost use Rattle.als_workers.specs.Rule.{new_pass};
ghost use Rattle.als_workers.specs.Passes.{IsPassOf};
ghost use Rattle.als_share.specs.Ledgers.{AreNamed};

use crate::standbys::{TWO_PAGES, standby};
use als_engine::Events;
use als_share::{Blanks, Counts, Handle, Ledgers, Settled, Share, Shared, settle, share};
use als_workers::{Ended, Gate, HandOff, Job, Pass, Point, StoredOffers, Via, apply_worker};
use std::alloc::Global;
use std::marker::Brand;
use std::sync::Wait;
use std::sync::atomic::{AtomicU64, Ordering};
use std::thread;
use std::thread::Threads;

/// Holds the redo of lease 1 until lease 2 is redone, for at most this many turns.
const LIMIT: u64 = 1_000_000;

#[derive(Drop)]
struct Held {
    redone: AtomicU64,
    late: AtomicU64,
}

impl Held {
    fn new() -> Held {
        Held {
            redone: AtomicU64::new(0),
            late: AtomicU64::new(0),
        }
    }

    fn hold(&self) {
        for _ in 0..LIMIT {
            if self.redone.load(Ordering::SeqCst) != 0 {
                return;
            }
            thread::yield_now();
        }
        self.late.store(1, Ordering::SeqCst);
    }
}

impl Gate for Held {
    fn pass(&self, point: Point) -> bool {
        match point {
            Point::Redo(1) => self.hold(),
            Point::Redone(2) => self.redone.store(1, Ordering::SeqCst),
            _ => {}
        }
        true
    }

    fn last(&self) -> bool {
        true
    }
}

/// What a worker's thread hands back: its pass, its share, and how many leases it offered, if it
/// ended by a stop.
type Worked<L> = (Pass, Share<L>, Option<usize>);

/// One worker, with a pass of its own.
fn work<L: Ledgers, E: Events, G: Gate, R: Wait>(
    rt: &R,
    alloc: Global,
    shared: &Shared<L, E>,
    queue: &HandOff,
    mine: Share<L>,
    pass: Pass,
    gate: &G,
) -> Worked<L>
    requires { IsPassOf queue.now pass × (view pass ≡ new_pass 1) }
    ensures { IsPassOf queue.now result.0 }
{
    let mut pass = pass;
    let mut via = Via::new(Handle::new(rt, shared, mine), StoredOffers::new(alloc));
    let ended = apply_worker(rt, queue, &mut pass, &mut via, gate);
    let (handle, offers) = via.end();
    let offered = if ended == Ended::Stop {
        Some(offers.offers().len())
    } else {
        None
    };
    (pass, handle.end(), offered)
}

/// Two workers in threads of their own.
fn work_twice<L: Ledgers + Send + Sync, E: Events + Send, G: Gate + Sync, R: Threads + Wait + Sync>(
    rt: &R,
    alloc: Global,
    shared: &Shared<L, E>,
    queue: &HandOff,
    one: (Share<L>, Pass),
    other: (Share<L>, Pass),
    gate: &G,
) -> (Worked<L>, Worked<L>)
    requires one { IsPassOf queue.now one.1 × (view one.1 ≡ new_pass 1) }
    requires other { IsPassOf queue.now other.1 × (view other.1 ≡ new_pass 1) }
    ensures { IsPassOf queue.now result.0.0 × IsPassOf queue.now result.1.0 }
{
    let (one_share, one_pass) = one;
    let (other_share, other_pass) = other;
    thread::join(
        rt,
        move || -> Worked<L>
            requires { IsPassOf queue.now one_pass × (view one_pass ≡ new_pass 1) }
            ensures { IsPassOf queue.entry.now result.0 }
        { work(rt, alloc, shared, queue, one_share, one_pass, gate) },
        move || -> Worked<L>
            requires { IsPassOf queue.now other_pass × (view other_pass ≡ new_pass 1) }
            ensures { IsPassOf queue.entry.now result.0 }
        { work(rt, alloc, shared, queue, other_share, other_pass, gate) },
    )
}

/// Lends a page and puts the lease.
fn hand_out<E: Events, R: Wait>(
    rt: &R,
    events: &mut E,
    queue: &HandOff,
    pass: &mut Pass,
    page: u32,
) -> Option<()>
    requires queue { IsPassOf queue.now pass.old }
    requires parts { 0 < (view pass.old).parts }
    ensures queue { IsPassOf queue.now pass.new }
    ensures parts { (view pass.new).parts ≡ (view pass.old).parts }
{
    let lease = events.lend(page).ok()?;
    queue.put(rt, pass, Job::Work(lease)).ok()
}

/// Leases of two pages, each redone by a worker of its own. The engine, and how many leases each
/// worker offered.
fn race<L: Ledgers + Send + Sync, E: Counts + Send + Drop, R: Threads + Wait + Sync>(
    rt: &R,
    alloc: Global,
    engine: E,
    blanks: Blanks,
    gate: &Held,
) -> Option<(E, usize, usize)>
    requires start { L.start ≡ Some (E.machine engine) }
    requires book { L.book ≡ E.book engine }
    requires names { AreNamed L.names blanks.names }
    requires parts { (blanks.parts ≡ L.shares) × (L.shares ≡ 3) }
    requires takes_over { L.takes_over ≡ true }
{
    let (shared, mut shares, acknowledger) = share::<L, E>(alloc, engine, 3, blanks, true).ok()?;
    let (one, other, mine) = (shares.pop()?, shares.pop()?, shares.pop()?);
    let (queue, mut pass) = HandOff::new(alloc).ok()?;
    let one_pass = queue.cut(&mut pass);
    let other_pass = queue.cut(&mut pass);
    let mut handle = Handle::new(rt, &shared, mine);
    hand_out(rt, &mut handle, &queue, &mut pass, 0)?;
    hand_out(rt, &mut handle, &queue, &mut pass, 1)?;
    queue.put(rt, &mut pass, Job::Stop).ok()?;
    queue.put(rt, &mut pass, Job::Stop).ok()?;
    let mine = handle.end();
    let (one, other) = work_twice(
        rt,
        alloc,
        &shared,
        &queue,
        (one, one_pass),
        (other, other_pass),
        gate,
    );
    let (one_pass, one_share, one_offered) = one;
    let (other_pass, other_share, other_offered) = other;
    queue.join(&mut pass, one_pass);
    queue.join(&mut pass, other_pass);
    shares.push(one_share).ok()?;
    shares.push(other_share).ok()?;
    let Settled { engine, touched: _ } = settle(shared, mine, shares, acknowledger);
    Some((engine, one_offered?, other_offered?))
}

/// The same, over ledgers that are picked here.
fn raced<E: Counts + Send + Drop, R: Threads + Wait + Sync>(
    rt: &R,
    alloc: Global,
    engine: E,
    gate: &Held,
) -> Option<(E, usize, usize)> {
    race::<Brand, E, R>(rt, alloc, engine, Blanks::new(3), gate)
}

/// Whether the change of each page is redone, and no lease is out.
fn has_redone<E: Events>(engine: &E) -> bool {
    let status = engine.status();
    status.pending == 0 && status.leases == 0
}

/// Whether two workers of a new standby redid one page each, at the same time. `None`: allocation
/// failed.
fn are_both_used<R: Threads + Wait + Sync>(rt: &R, alloc: Global) -> Option<bool> {
    let mut engine = standby(rt, alloc)?;
    if engine.feed(&TWO_PAGES).is_err() {
        return None;
    }
    let gate = Held::new();
    let (engine, one, other) = raced(rt, alloc, engine, &gate)?;
    let were_in_time = gate.late.load(Ordering::SeqCst) == 0;
    Some(were_in_time && one == 1 && other == 1 && has_redone(&engine))
}

#[test]
fn two_workers_redo_at_once(rt: HostRuntime) {
    let alloc = rt.alloc();
    assert!(rt; are_both_used(&rt, alloc) == Some(true) || are_both_used(&rt, alloc) == Some(true));
}
