use crate::desk::{Desk, Seen};
use crate::made::{desk, doubts, primary};
use crate::others::{Others, Word};
use als_engine::{Events, Fault as EngineFault};
use als_lead::{Account, Limits, lead};
use als_operate::Fault;
use std::alloc::Global;
use std::process::Abort;
use std::sync::Wait;

/// How a leader is asked: the transactions of a group, and how often it may wait for its clients.
#[derive(Clone, Copy)]
struct Asking {
    transactions: usize,
    waits: u32,
}

/// What a leader did.
#[derive(Clone, Copy)]
struct Led {
    ended: Result<(), Fault>,
    groups: u32,
    /// How often readers were shown what is acknowledged.
    shown: u32,
    kept_up: u32,
    /// How many clients were not taken.
    left: usize,
}

/// What a leader answers these seats, whose others confirm by these scripts: each group, and before each
/// group. `None`: memory was refused.
fn leads<R: Wait + Abort>(
    rt: &R,
    alloc: Global,
    mut desk: Desk,
    asking: Asking,
    groups: &[Word],
    before: &[Word],
    wanted: &[(u64, Seen)],
) -> Option<Led> {
    let (mut engine, fuse) = primary(rt, alloc)?;
    drop(fuse);
    desk.waits = asking.waits;
    let limits = Limits {
        transactions: asking.transactions,
        bytes: u64::MAX,
    };
    let mut others = Others::new(rt, engine.status().end, groups, before);
    // Nothing was handed out or answered yet.
    desk.account = Account::Nothing;
    let ended = lead(alloc, &mut engine, &mut desk, &mut others, limits);
    if ended == Err(Fault::Memory) || ended == Err(Fault::Refused(EngineFault::Memory)) {
        return None;
    }
    for (i, seen) in desk.seen.iter().enumerate() {
        if seen.1 == Seen::Other {
            return None;
        }
        assert!(rt; wanted.get(i) == Some(seen));
    }
    assert!(rt; desk.seen.len() == wanted.len());
    Some(Led {
        ended,
        groups: desk.groups,
        shown: others.shown,
        kept_up: others.kept_up,
        left: desk.asks.len(),
    })
}

/// The first group is not confirmed in time. The leader asks three times before the next one.
fn late<R: Wait + Abort + AllocGlobal>(rt: &R) -> Option<()> {
    let asking = Asking {
        transactions: 1,
        waits: u32::MAX,
    };
    let before = [Word::Yes, Word::No, Word::No];
    let wanted = [
        (7, Seen::Unknown),
        (3, Seen::NotAsAsked),
        (9, Seen::Invalid),
        (5, Seen::Committed),
    ];
    let led = leads(
        rt,
        rt.alloc(),
        desk(rt.alloc())?,
        asking,
        &[Word::No],
        &before,
        &wanted,
    )?;
    assert!(rt; led.ended == Ok(()));
    assert!(rt; led.groups == 4);
    // Before the first group, once the first is confirmed, and before and after each other one; and
    // before the clients have closed.
    assert!(rt; led.shown == 8);
    assert!(rt; led.kept_up == 6);
    Some(())
}

#[test]
fn a_late_confirmation_holds_the_next_group_back(rt: HostRuntime) {
    assert!(rt; late(&rt).is_some() || late(&rt).is_some());
}

/// A group is not confirmed, and the clients close.
fn unconfirmed<R: Wait + Abort + AllocGlobal>(rt: &R) -> Option<()> {
    let asking = Asking {
        transactions: 64,
        waits: u32::MAX,
    };
    let before = [Word::Yes, Word::No];
    let wanted = [
        (7, Seen::Unknown),
        (3, Seen::Withheld),
        (9, Seen::Withheld),
        (5, Seen::Unknown),
    ];
    let led = leads(
        rt,
        rt.alloc(),
        desk(rt.alloc())?,
        asking,
        &[Word::No],
        &before,
        &wanted,
    )?;
    assert!(rt; led.ended == Ok(()));
    assert!(rt; led.groups == 1);
    assert!(rt; led.shown == 1);
    Some(())
}

#[test]
fn an_unconfirmed_group_promises_nothing(rt: HostRuntime) {
    assert!(rt; unconfirmed(&rt).is_some() || unconfirmed(&rt).is_some());
}

/// A group that prepares and decides is not confirmed, and the clients close.
fn in_doubt<R: Wait + Abort + AllocGlobal>(rt: &R) -> Option<()> {
    let asking = Asking {
        transactions: 64,
        waits: u32::MAX,
    };
    let before = [Word::Yes, Word::No];
    let wanted = [
        (7, Seen::Unknown),
        (3, Seen::Withheld),
        (9, Seen::Unknown),
        (5, Seen::Unknown),
        (4, Seen::Unknown),
        (6, Seen::Unknown),
        (8, Seen::Withheld),
        (2, Seen::Unknown),
    ];
    let led = leads(
        rt,
        rt.alloc(),
        doubts(rt.alloc())?,
        asking,
        &[Word::No],
        &before,
        &wanted,
    )?;
    assert!(rt; led.ended == Ok(()));
    assert!(rt; led.groups == 1);
    Some(())
}

#[test]
fn an_unconfirmed_decision_is_unknown(rt: HostRuntime) {
    assert!(rt; in_doubt(&rt).is_some() || in_doubt(&rt).is_some());
}

/// Nothing is confirmed, and the clients close at the fourth wait.
fn never<R: Wait + Abort + AllocGlobal>(rt: &R) -> Option<()> {
    let asking = Asking {
        transactions: 64,
        waits: 3,
    };
    let led = leads(
        rt,
        rt.alloc(),
        desk(rt.alloc())?,
        asking,
        &[],
        &[Word::No; 9],
        &[],
    )?;
    assert!(rt; led.ended == Ok(()));
    assert!(rt; led.groups == 0);
    assert!(rt; led.shown == 0);
    assert!(rt; led.kept_up == 3);
    assert!(rt; led.left == 4);
    Some(())
}

#[test]
fn nobody_is_taken_before_a_confirmation(rt: HostRuntime) {
    assert!(rt; never(&rt).is_some() || never(&rt).is_some());
}

/// The confirmation of a group fails.
fn failed<R: Wait + Abort + AllocGlobal>(rt: &R) -> Option<()> {
    let asking = Asking {
        transactions: 64,
        waits: u32::MAX,
    };
    let wanted = [
        (7, Seen::Unknown),
        (3, Seen::State),
        (9, Seen::State),
        (5, Seen::Unknown),
    ];
    let led = leads(
        rt,
        rt.alloc(),
        desk(rt.alloc())?,
        asking,
        &[Word::Fails],
        &[],
        &wanted,
    )?;
    assert!(rt; led.ended == Err(Fault::Refused(EngineFault::Device)));
    assert!(rt; led.groups == 1);
    assert!(rt; led.shown == 1);
    Some(())
}

#[test]
fn a_failed_confirmation_ends_the_leader(rt: HostRuntime) {
    assert!(rt; failed(&rt).is_some() || failed(&rt).is_some());
}

/// The leader cannot ask whether the log is confirmed.
fn deaf<R: Wait + Abort + AllocGlobal>(rt: &R) -> Option<()> {
    let asking = Asking {
        transactions: 64,
        waits: u32::MAX,
    };
    let led = leads(
        rt,
        rt.alloc(),
        desk(rt.alloc())?,
        asking,
        &[],
        &[Word::Fails],
        &[],
    )?;
    assert!(rt; led.ended == Err(Fault::Refused(EngineFault::Device)));
    assert!(rt; led.groups == 0);
    assert!(rt; led.left == 4);
    Some(())
}

#[test]
fn a_failure_before_a_group_takes_nobody(rt: HostRuntime) {
    assert!(rt; deaf(&rt).is_some() || deaf(&rt).is_some());
}
