use als_cascade::{Era, UnderEra};
use als_epochs::History;
use als_record::Lsn;
use std::alloc::Global;
use std::io::Write;
use std::sync::Wait;
use std::test::Fail;

/// The epoch and the number of what was adopted last. None: it is not durable.
fn now<R: Wait>(rt: &R, era: &Era) -> Option<(u32, u64)> {
    let adopted = era.now(rt)?;
    Some((adopted.history.epoch(), adopted.number))
}

/// Writes to a follower before an adoption, after it, and once that is durable. Answers which of these writes
/// failed, and how many bytes the follower got.
fn write_all<R: Wait>(rt: &R, alloc: Global, era: &Era, next: History) -> ([bool; 3], usize) {
    let mut under = UnderEra::new(rt, era, era.number(rt), Vec::new(alloc));
    let before = under.write_all(b"ab").is_err();
    era.turn(rt, next);
    let after = under.write_all(b"cde").is_err();
    era.settle(rt);
    let durable = under.write_all(b"cde").is_err();
    ([before, after, durable], under.end().len())
}

#[test]
fn a_session_begins_once_an_adoption_is_durable(rt: HostRuntime) -> Result<(), Fail> {
    let era = Era::new(History::empty());
    assert!(rt; now(&rt, &era) == Some((0, 0)));
    let next = History::of(&[Lsn(108)]);
    assert!(rt; next.is_some());
    era.turn(&rt, next.unwrap_or(History::empty()));
    assert!(rt; now(&rt, &era).is_none());
    assert!(rt; era.number(&rt) == 1);
    era.settle(&rt);
    assert!(rt; now(&rt, &era) == Some((1, 1)));
    era.settle(&rt);
    assert!(rt; now(&rt, &era) == Some((1, 1)));
    Ok(())
}

#[test]
fn an_adoption_ends_a_session(rt: HostRuntime) -> Result<(), Fail> {
    let era = Era::new(History::empty());
    let alloc = rt.alloc();
    let (failed, len) = write_all(&rt, alloc, &era, History::empty());
    assert!(rt; failed == [false, true, true]);
    assert!(rt; len == 2);
    Ok(())
}
