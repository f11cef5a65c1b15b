//! A worker: a thread that redoes leases outside the engine's lock.
//!
//! A lease is in the queue, with a worker, or given back. A worker takes one, redoes a turn of it on its
//! own copy of the page, and gives it if it is finished; else the lease goes to the end of the queue.
//!
//! 1. Redo needs no lock: nobody else changes the page while it is lent.
//! 2. A turn is short, so that a page with many changes does not keep others waiting.
//! 3. A worker makes one event, `give`, and no other. `Ended` says why it ends: a stop in the queue, a
//!    closed queue, its gate, or want of memory. A lease that it has taken is given or put back.
ghost use Rattle.std.specs.Prelude.{◌≡◌, ◌<◌, [], ◌∷◌, ◌++◌, Some, None, true, false};
ghost use Rattle.crossbeam_channel.specs.Claims.{view};
ghost use Rattle.als_engine.specs.declared.event.Event.TheVariants as event;
ghost use Rattle.als_lease.specs.Lease.{is_finished};
ghost use Rattle.als_workers.specs.declared.rule.PassState.{PassState};
ghost use Rattle.als_workers.specs.Passes.{IsPassOf};
ghost use Rattle.als_workers.specs.Offers.{events_of, record_of};
ghost use Rattle.als_workers.specs.Tallies.{AloneRaise};
ghost use Rattle.als_workers.specs.Worked.{Worked, IsTurnOf, HasTaken};

use crate::ended::Ended;
use crate::gate::{Gate, Point};
use crate::job::Job;
use crate::offer_record::OfferRecord;
use crate::queue::HandOff;
use crate::rule::Pass;
use crate::via::Via;
use als_engine::Events;
use als_lease::PageLease;
use std::sync::Wait;

/// A turn: a worker redoes this many changes of a lease before other leases have theirs.
const TURN_LEN: usize = 16;

/// Takes leases and redoes a turn of each, outside the engine, until it takes a stop. A finished lease
/// is given, an unfinished one goes to the back of the queue. What it offers is recorded as `O` does:
/// the clauses are the same for each kind of record.
#[tactic(auto, using(crate::proofs::Tallies::none))]
pub fn apply_worker<E: Events, O: OfferRecord, G: Gate, R: Wait>(
    rt: &R,
    queue: &HandOff,
    pass: &mut Pass,
    via: &mut Via<E, O>,
    gate: &G,
) -> Ended
    requires queue { IsPassOf queue.now pass.old }
    requires parts { 0 < (view pass.old).parts }
    ensures queue { IsPassOf queue.now pass.new }
    ensures worked { Worked (view pass.old) (view pass.new) (O.offers (record_of via.old)) (O.offers (record_of via.new)) (Some result) }
    // It makes no event but `give`.
    ensures gives { AloneRaise (event.Give ∷ []) (E.tally (events_of via.old)) (E.tally (events_of via.new)) }
{
    for _ in rt.forever() {
        if let Some(ended) = work_once(rt, queue, pass, via, gate) {
            return ended;
        }
    }
    unreachable!()
}

// Takes one job, and works on it for a turn. `None`: the worker goes on.
#[tactic(auto, using(crate::proofs::Tallies::none))]
fn work_once<E: Events, O: OfferRecord, G: Gate, R: Wait>(
    rt: &R,
    queue: &HandOff,
    pass: &mut Pass,
    via: &mut Via<E, O>,
    gate: &G,
) -> Option<Ended>
    requires queue { IsPassOf queue.now pass.old }
    requires parts { 0 < (view pass.old).parts }
    ensures queue { IsPassOf queue.now pass.new }
    ensures worked { Worked (view pass.old) (view pass.new) (O.offers (record_of via.old)) (O.offers (record_of via.new)) result }
    ensures gives { AloneRaise (event.Give ∷ []) (E.tally (events_of via.old)) (E.tally (events_of via.new)) }
{
    if via.room().is_err() {
        return Some(Ended::Memory);
    }
    if !gate.pass(Point::Take) {
        return Some(Ended::Gate);
    }
    match queue.take(rt, pass) {
        None => Some(Ended::Empty),
        Some(Job::Stop) => Some(Ended::Stop),
        Some(Job::Work(lease)) => work_on(rt, queue, pass, via, gate, lease),
    }
}

// Works for a turn on a lease that was taken.
#[tactic(auto, using(crate::proofs::Tallies::none))]
fn work_on<E: Events, O: OfferRecord, G: Gate, R: Wait>(
    rt: &R,
    queue: &HandOff,
    pass: &mut Pass,
    via: &mut Via<E, O>,
    gate: &G,
    mut lease: PageLease,
) -> Option<Ended>
    requires queue { IsPassOf queue.now pass.old }
    requires parts { 0 < (view pass.old).parts }
    requires room { O.has_room (record_of via.old) }
    ensures queue { IsPassOf queue.now pass.new }
    ensures worked { (u : PassState) → HasTaken u lease (view pass.old)
        → Worked u (view pass.new) (O.offers (record_of via.old)) (O.offers (record_of via.new)) result }
    ensures gives { AloneRaise (event.Give ∷ []) (E.tally (events_of via.old)) (E.tally (events_of via.new)) }
{
    let number = lease.number();
    if !gate.pass(Point::Redo(number)) {
        let _ = via.give(lease);
        return Some(Ended::Gate);
    }
    redo_turn(&mut lease);
    if !gate.pass(Point::Redone(number)) {
        let _ = via.give(lease);
        return Some(Ended::Gate);
    }
    if !lease.finished() {
        return match queue.put(rt, pass, Job::Work(lease)) {
            Ok(()) => None,
            Err(Job::Work(lease)) => {
                let _ = via.give(lease);
                Some(Ended::Back)
            }
            // The job that was put comes back.
            Err(Job::Stop) => unreachable!(),
        };
    }
    if !gate.pass(Point::Give(number)) {
        let _ = via.give(lease);
        return Some(Ended::Gate);
    }
    let _ = via.give(lease);
    None
}

// Redoes up to 16 changes. It takes no lock.
fn redo_turn(lease: &mut PageLease)
    ensures { IsTurnOf lease.old lease.new }
{
    for _ in 0..TURN_LEN {
        if !lease.redo_next() {
            break;
        }
    }
}
