use crate::desk::{Desk, Seen};
use crate::made::{desk, primary};
use als_engine::{Events, Fault as EngineFault};
use als_lead::{Account, Limits, PrimaryUpkeep, lead};
use als_operate::Fault;
use std::alloc::Global;
use std::process::Abort;
use std::sync::Wait;

/// What a leader answers these seats in groups of so many, where a call of the log device fails, counted
/// from 1; none for 0. `None`: memory was refused.
pub fn leads<R: Wait + Abort>(
    rt: &R,
    alloc: Global,
    mut desk: Desk,
    transactions: usize,
    fails_at: u64,
    wanted: &[(u64, Seen)],
) -> Option<(Result<(), Fault>, u32)> {
    let (mut engine, log) = primary(rt, alloc)?;
    if fails_at > 0 {
        log.fail_at(fails_at);
    }
    let limits = Limits {
        transactions,
        bytes: u64::MAX,
    };
    let mut upkeep = PrimaryUpkeep::new(rt, 0, engine.status().end);
    // Nothing was handed out or answered yet.
    desk.account = Account::Nothing;
    let ended = lead(alloc, &mut engine, &mut desk, &mut upkeep, limits);
    if ended == Err(Fault::Memory) || ended == Err(Fault::Refused(EngineFault::Memory)) {
        return None;
    }
    for (i, seen) in desk.seen.iter().enumerate() {
        if seen.1 == Seen::Other {
            return None;
        }
        assert!(rt; wanted.get(i) == Some(seen));
    }
    assert!(rt; desk.seen.len() == wanted.len());
    Some((ended, desk.groups))
}

/// Each seat in order, refusals too.
const ANSWERS: [(u64, Seen); 4] = [
    (7, Seen::Committed),
    (3, Seen::NotAsAsked),
    (9, Seen::Invalid),
    (5, Seen::Committed),
];

fn one_group<R: Wait + Abort + AllocGlobal>(rt: &R) -> Option<()> {
    let (ended, groups) = leads(rt, rt.alloc(), desk(rt.alloc())?, 64, 0, &ANSWERS)?;
    assert!(rt; ended == Ok(()));
    assert!(rt; groups == 1);
    Some(())
}

#[test]
fn a_group_is_answered_in_order(rt: HostRuntime) {
    assert!(rt; one_group(&rt).is_some() || one_group(&rt).is_some());
}

fn four_groups<R: Wait + Abort + AllocGlobal>(rt: &R) -> Option<()> {
    let (ended, groups) = leads(rt, rt.alloc(), desk(rt.alloc())?, 1, 0, &ANSWERS)?;
    assert!(rt; ended == Ok(()));
    assert!(rt; groups == 4);
    Some(())
}

#[test]
fn groups_of_one_are_answered_alike(rt: HostRuntime) {
    assert!(rt; four_groups(&rt).is_some() || four_groups(&rt).is_some());
}

/// What was written may be durable or not; what was refused was perhaps refused by what is not.
const FAILED: [(u64, Seen); 4] = [
    (7, Seen::Unknown),
    (3, Seen::State),
    (9, Seen::State),
    (5, Seen::Unknown),
];

fn failed_force<R: Wait + Abort + AllocGlobal>(rt: &R) -> Option<()> {
    let (ended, groups) = leads(rt, rt.alloc(), desk(rt.alloc())?, 64, 1, &FAILED)?;
    assert!(rt; ended == Err(Fault::Refused(EngineFault::Device)));
    assert!(rt; groups == 1);
    Some(())
}

#[test]
fn a_failed_force_answers_unknown(rt: HostRuntime) {
    assert!(rt; failed_force(&rt).is_some() || failed_force(&rt).is_some());
}

fn first_group_fails<R: Wait + Abort + AllocGlobal>(rt: &R) -> Option<()> {
    let (ended, groups) = leads(
        rt,
        rt.alloc(),
        desk(rt.alloc())?,
        1,
        1,
        &[(7, Seen::Unknown)],
    )?;
    assert!(rt; ended == Err(Fault::Refused(EngineFault::Device)));
    assert!(rt; groups == 1);
    Some(())
}

#[test]
fn a_failed_force_takes_no_more(rt: HostRuntime) {
    assert!(rt; first_group_fails(&rt).is_some() || first_group_fails(&rt).is_some());
}
