use crate::log::{LOG, damaged};
use als_lookback::{Fault, Until, find_commit, look_back};
use als_record::{Fault as ShapeFault, Key, Lsn, TransId};
use std::alloc::Global;
use std::process::Abort;

/// How many commits there are up to an LSN, the LSN of the last one, and the first byte of a key's
/// value.
fn seen(alloc: Global, until: Until, page: u32, slot: u8) -> Result<(u64, u64, Option<u8>), Fault> {
    let seen = look_back(alloc, LOG.as_slice(), until)?;
    let first = match seen.value(Key { page, slot }) {
        Some(value) => value.first().copied(),
        None => None,
    };
    Ok((seen.commits(), seen.last().0, first))
}

#[test]
fn a_commit_is_seen_once_it_has_ended(rt: HostRuntime) {
    assert!(rt; seen(rt.alloc(), Until::At(Lsn(79)), 0, 0) == Ok((0, 0, None)));
    assert!(rt; seen(rt.alloc(), Until::At(Lsn(80)), 0, 0) == Ok((1, 52, Some(0xaa))));
}

#[test]
fn an_open_transaction_is_not_seen(rt: HostRuntime) {
    assert!(rt; seen(rt.alloc(), Until::End, 0, 0) == Ok((1, 52, Some(0xaa))));
    assert!(rt; seen(rt.alloc(), Until::End, 0, 1) == Ok((1, 52, None)));
}

#[test]
fn a_key_outside_has_nothing(rt: HostRuntime) {
    assert!(rt; seen(rt.alloc(), Until::End, 4, 0) == Ok((1, 52, None)));
    assert!(rt; seen(rt.alloc(), Until::End, 0, 15) == Ok((1, 52, None)));
}

/// Where a transaction committed.
fn found(alloc: Global, text: &[u8], trans: u32) -> Result<u64, Fault> {
    Ok(find_commit(alloc, text, TransId(trans))?.0)
}

#[test]
fn a_commit_is_found(rt: HostRuntime) {
    let text = damaged();
    let bad = Err(Fault::Shape(ShapeFault::BadType));
    assert!(rt; found(rt.alloc(), &LOG, 1) == Ok(52));
    assert!(rt; found(rt.alloc(), &LOG, 2) == Err(Fault::NoCommit));
    assert!(rt; found(rt.alloc(), &text, 1) == Ok(52));
    assert!(rt; found(rt.alloc(), &text, 2) == bad);
}
