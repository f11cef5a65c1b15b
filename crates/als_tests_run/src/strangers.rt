use crate::standbys::{TWO_PAGES, crashed, force, standby};
use als_engine::{Events, Fault, PageLease};
use std::alloc::Global;
use std::sync::Wait;

/// The lease of page 0, of a log that is acknowledged.
fn lend<E: Events>(events: &mut E) -> Option<PageLease> {
    events.feed(&TWO_PAGES).ok()?;
    force(events)?;
    events.lend(0).ok()
}

/// Offers a lease that is refused as a stranger, and comes back.
fn offer<E: Events>(events: &mut E, lease: PageLease) -> Option<PageLease> {
    match events.give(lease) {
        Err(refused) if refused.fault == Fault::Stranger => Some(refused.into_lease()),
        _ => None,
    }
}

/// Whether a lease of page 0 is a stranger, and stays one while page 1 is lent by a lease of the same
/// number. Both pages wait for redo as before.
fn is_stranger<E: Events>(events: &mut E, lease: PageLease) -> Option<bool> {
    let lease = offer(events, lease)?;
    let other = events.lend(1).ok()?;
    let has_same_number = other.number() == lease.number();
    let _ = offer(events, lease)?;
    events.give(other).ok()?;
    Some(has_same_number && events.status().pending == 2)
}

/// A lease is kept over a crash.
fn keep_lease<R: Wait>(rt: &R, alloc: Global) -> Option<bool> {
    let mut engine = standby(rt, alloc)?;
    let lease = lend(&mut engine)?;
    let (engine, _) = crashed(rt, alloc, engine)?;
    let mut engine = engine;
    is_stranger(&mut engine, lease)
}

#[test]
fn a_lease_kept_over_a_crash_is_a_stranger(rt: HostRuntime) {
    let alloc = rt.alloc();
    assert!(rt; keep_lease(&rt, alloc) == Some(true) || keep_lease(&rt, alloc) == Some(true));
}
