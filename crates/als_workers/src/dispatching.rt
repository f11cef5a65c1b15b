ghost use Rattle.std.specs.Prelude.{◌≡◌, ◌<◌};
ghost use Rattle.crossbeam_channel.specs.Claims.{view};
ghost use Rattle.als_workers.specs.Passes.{IsPassOf};
ghost use Rattle.als_workers.specs.Dispatching.{Dispatches, HasStopped};

use crate::gate::{Gate, Point};
use crate::job::Job;
use crate::outcome::{DispatchEnd, Dispatched};
use crate::queue::HandOff;
use crate::rule::Pass;
use als_engine::{Events, Fault, State};
use std::sync::Wait;
use std::thread;

/// At most this many leases are out at a time, so that the queue, which has twice the room, is never
/// full: no worker waits to put a lease back.
pub const LEASE_LIMIT: u64 = 32;

/// Lends the pages that wait for redo, in rising order and again from the first, and puts the leases.
/// It ends where nothing more is fed and nothing waits or is lent, where the engine has stopped, where
/// the last lease number is spent, or by its gate, and then puts a stop for each worker. A page that
/// can't be lent otherwise is passed over, and comes again with the next round.
///
/// It counts the leases that are out by itself: at most those in the queue and one for each worker.
/// The engine's own count leaves out those that were recalled and are queued still.
pub fn dispatcher<E: Events, G: Gate, R: Wait>(
    rt: &R,
    queue: &HandOff,
    pass: &mut Pass,
    events: &mut E,
    gate: &G,
    workers: usize,
) -> Dispatched
    requires queue { IsPassOf queue.now pass.old }
    requires parts { 0 < (view pass.old).parts }
    ensures queue { IsPassOf queue.now pass.new }
    // A stop for each worker is put, but for those that the queue handed back.
    ensures dispatches { Dispatches (view pass.old) (view pass.new) (E.tally events.old) (E.tally events.new)
        workers result.stops }
{
    let end = lend_all(rt, queue, pass, events, gate, workers);
    let stops = stop_all(rt, queue, pass, workers);
    Dispatched { end, stops }
}

// Lends until there is nothing more to lend.
#[tactic(auto, using(crate::proofs::Dispatches::lends_none, crate::proofs::Dispatches::lends_more))]
fn lend_all<E: Events, G: Gate, R: Wait>(
    rt: &R,
    queue: &HandOff,
    pass: &mut Pass,
    events: &mut E,
    gate: &G,
    workers: usize,
) -> DispatchEnd
    requires queue { IsPassOf queue.now pass.old }
    requires parts { 0 < (view pass.old).parts }
    ensures queue { IsPassOf queue.now pass.new }
    ensures dispatches { Dispatches (view pass.old) (view pass.new) (E.tally events.old) (E.tally events.new) 0 0 }
{
    let mut from = 0;
    for _ in rt.forever() {
        if !gate.pass(Point::Lend) {
            return DispatchEnd::Gate;
        }
        // Asked before the engine is: all that was fed until then is seen.
        let last = gate.last();
        if is_limit_reached(queue, workers) {
            thread::yield_now();
            continue;
        }
        match events.next_pending(from) {
            Some(page) => {
                if let Err(end) = lend_one(rt, queue, pass, events, page) {
                    return end;
                }
                from = page.saturating_add(1);
            }
            None => {
                if let Some(end) = idle_end(events, last) {
                    return end;
                }
                from = 0;
                thread::yield_now();
            }
        }
    }
    unreachable!()
}

// Whether as many leases may be out as are allowed: those queued, and one for each worker.
fn is_limit_reached(queue: &HandOff, workers: usize) -> bool {
    queue.jobs().saturating_add(workers as u64) >= LEASE_LIMIT
}

// Whether the work is done, where no page from the last one on waits.
fn idle_end<E: Events>(events: &E, last: bool) -> Option<DispatchEnd> {
    let status = events.status();
    if status.state == State::Stopped {
        return Some(DispatchEnd::Stopped);
    }
    if last && status.pending == 0 && status.leases == 0 {
        return Some(DispatchEnd::Drained);
    }
    None
}

// Lends a page and puts the lease. A lease that the queue hands back is offered to `give`. A page that
// can't be lent now is passed over. `Err`: nothing can be lent any more.
fn lend_one<E: Events, R: Wait>(
    rt: &R,
    queue: &HandOff,
    pass: &mut Pass,
    events: &mut E,
    page: u32,
) -> Result<(), DispatchEnd>
    requires queue { IsPassOf queue.now pass.old }
    requires parts { 0 < (view pass.old).parts }
    ensures queue { IsPassOf queue.now pass.new }
    ensures dispatches { Dispatches (view pass.old) (view pass.new) (E.tally events.old) (E.tally events.new) 0 0 }
{
    let lease = match events.lend(page) {
        Ok(lease) => lease,
        Err(fault) => return end_at(fault),
    };
    match queue.put(rt, pass, Job::Work(lease)) {
        Ok(()) => {}
        Err(Job::Work(lease)) => {
            let _ = events.give(lease);
        }
        // The job that was put comes back.
        Err(Job::Stop) => unreachable!(),
    }
    Ok(())
}

// `Err`: by this refusal of a lend nothing can be lent any more.
fn end_at(fault: Fault) -> Result<(), DispatchEnd> {
    match fault {
        Fault::Stopped => Err(DispatchEnd::Stopped),
        Fault::NumbersSpent => Err(DispatchEnd::NumbersSpent),
        _ => Ok(()),
    }
}

// Puts a stop for each worker, and counts those that the queue took.
fn stop_all<R: Wait>(rt: &R, queue: &HandOff, pass: &mut Pass, workers: usize) -> usize
    requires queue { IsPassOf queue.now pass.old }
    requires parts { 0 < (view pass.old).parts }
    ensures queue { IsPassOf queue.now pass.new }
    ensures stops { HasStopped (view pass.old) (view pass.new) workers result }
{
    let mut stops = 0;
    for _ in 0..workers {
        stops += stop_one(rt, queue, pass);
    }
    stops
}

// Puts a stop. 1, or 0 where the queue handed it back.
fn stop_one<R: Wait>(rt: &R, queue: &HandOff, pass: &mut Pass) -> usize
    requires queue { IsPassOf queue.now pass.old }
    requires parts { 0 < (view pass.old).parts }
    ensures queue { IsPassOf queue.now pass.new }
    ensures stops { HasStopped (view pass.old) (view pass.new) 1 result }
{
    match queue.put(rt, pass, Job::Stop) {
        Ok(()) => {}
        Err(_) => return 0,
    }
    1
}
