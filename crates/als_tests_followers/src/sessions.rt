use crate::made::{Made, follow, make, next, notice, up_to};
use als_followers::What;
use als_quorum::Quorum;
use als_record::Lsn;
use std::alloc::Global;
use std::net::{Net, TcpStream};
use std::sync::Wait;
use std::test::Fail;
use std::thread::Threads;
use std::time::{Clock, Duration};

/// Whether this many followers have acknowledged the log up to there, or do within the time.
fn has<R: Wait + Clock>(rt: &R, quorum: &Quorum, count: u32, end: u64, at_most: Duration) -> bool {
    quorum.wait_for(rt, count, up_to(end), at_most).is_enough
}

/// Whether a follower gets what is below the tail, and more as that rises; whether the leader sees what it
/// acknowledged; and whether its session ends in order. None: something failed.
fn grow<R: Net<Stream = TcpStream> + Threads + Wait + Clock + Clone + Send + Sync + Drop + 'static>(
    rt: &R,
    alloc: Global,
    made: Made<R>,
) -> Option<[bool; 6]> {
    let Made {
        followers,
        tail,
        quorum,
        at,
    } = made;
    let mut right = [false; 6];
    let long = Duration::from_secs(20);
    let mut stream = follow(rt, at, 16)?;
    right[0] = next(alloc, &mut stream)? == (16, 100);
    right[1] = has(rt, &quorum, 1, 116, long);
    tail.raise(rt, Lsn(200));
    right[2] = next(alloc, &mut stream)? == (116, 84);
    right[3] = has(rt, &quorum, 1, 200, long)
        && !has(rt, &quorum, 2, 16, Duration::from_millis(10));
    right[4] = matches!(notice(rt, &followers)?, What::Came(Lsn(16)));
    tail.close(rt);
    right[5] = next(alloc, &mut stream)? == (200, 0)
        && matches!(notice(rt, &followers)?, What::Ended)
        && !has(rt, &quorum, 1, 16, Duration::from_millis(10));
    followers.close(rt);
    Some(right)
}

#[test]
fn a_follower_gets_the_log_as_it_grows(rt: HostRuntime) -> Result<(), Fail> {
    let alloc = rt.alloc();
    let made = make(&rt, alloc, "127.0.0.0/8")?;
    let right = grow(&rt, alloc, made);
    assert!(rt; right == Some([true; 6]));
    Ok(())
}
