use als_quorum::Tail;
use als_record::Lsn;
use std::sync::Wait;
use std::test::Fail;
use std::thread;
use std::time::{Clock, Duration};

/// Waits, at most this many milliseconds, until a log may be read past 52. Returns its end, and whether it
/// is closed.
fn wait_past<R: Wait + Clock>(rt: &R, tail: &Tail, millis: u64) -> (u64, bool) {
    let reach = tail.wait_past(rt, 52, 0, Duration::from_millis(millis));
    (reach.end.0, reach.is_closed)
}

/// Raises a tail, by less at first.
fn raise<R: Wait + Clock>(rt: &R, tail: &Tail) {
    thread::sleep(rt, Duration::from_millis(20));
    tail.raise(rt, Lsn(52));
    thread::sleep(rt, Duration::from_millis(20));
    tail.raise(rt, Lsn(108));
    tail.raise(rt, Lsn(60));
}

#[test]
fn a_session_is_woken(rt: HostRuntime) -> Result<(), Fail> {
    let tail = Tail::new(Lsn(16));
    assert!(rt; wait_past(&rt, &tail, 20) == (16, false));
    let tail = &tail;
    let rt = &rt;
    let (found, ()) = thread::join(
        rt,
        move || wait_past(rt, tail, 50_000),
        move || raise(rt, tail),
    );
    assert!(rt; found == (108, false));
    assert!(rt; tail.reach(rt).end.0 == 108);
    tail.close(rt);
    assert!(rt; tail.reach(rt).is_closed);
    assert!(rt; wait_past(rt, tail, 0) == (108, true));
    Ok(())
}
