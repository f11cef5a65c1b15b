use crate::desk::Seen;
use crate::groups::leads;
use crate::made::doubts;
use als_engine::Fault as EngineFault;
use als_operate::Fault;
use std::process::Abort;
use std::sync::Wait;

/// Each seat in order. A key of a transaction in doubt is held, a decision ends that, and one that is
/// rolled back leaves what was.
const ANSWERS: [(u64, Seen); 8] = [
    (7, Seen::Prepared(1)),
    (3, Seen::Held(1)),
    (9, Seen::Decided(1)),
    (5, Seen::Committed),
    (4, Seen::Prepared(3)),
    (6, Seen::Decided(3)),
    (8, Seen::NotInDoubt),
    (2, Seen::Committed),
];

fn one_group<R: Wait + Abort + AllocGlobal>(rt: &R) -> Option<()> {
    let alloc = rt.alloc();
    let (ended, groups) = leads(rt, alloc, doubts(alloc)?, 64, 0, &ANSWERS)?;
    assert!(rt; ended == Ok(()));
    assert!(rt; groups == 1);
    Some(())
}

#[test]
fn a_group_prepares_and_decides(rt: HostRuntime) {
    assert!(rt; one_group(&rt).is_some() || one_group(&rt).is_some());
}

fn eight_groups<R: Wait + Abort + AllocGlobal>(rt: &R) -> Option<()> {
    let alloc = rt.alloc();
    let (ended, groups) = leads(rt, alloc, doubts(alloc)?, 1, 0, &ANSWERS)?;
    assert!(rt; ended == Ok(()));
    assert!(rt; groups == 8);
    Some(())
}

#[test]
fn groups_of_one_decide_alike(rt: HostRuntime) {
    assert!(rt; eight_groups(&rt).is_some() || eight_groups(&rt).is_some());
}

/// What was prepared or decided may be durable or not; what was refused was perhaps refused by what is
/// not, also that a transaction is not in doubt.
const FAILED: [(u64, Seen); 8] = [
    (7, Seen::Unknown),
    (3, Seen::State),
    (9, Seen::Unknown),
    (5, Seen::Unknown),
    (4, Seen::Unknown),
    (6, Seen::Unknown),
    (8, Seen::NotDecided),
    (2, Seen::Unknown),
];

fn failed_force<R: Wait + Abort + AllocGlobal>(rt: &R) -> Option<()> {
    let alloc = rt.alloc();
    let (ended, groups) = leads(rt, alloc, doubts(alloc)?, 64, 1, &FAILED)?;
    assert!(rt; ended == Err(Fault::Refused(EngineFault::Device)));
    assert!(rt; groups == 1);
    Some(())
}

#[test]
fn a_failed_force_decides_nothing_for_certain(rt: HostRuntime) {
    assert!(rt; failed_force(&rt).is_some() || failed_force(&rt).is_some());
}
