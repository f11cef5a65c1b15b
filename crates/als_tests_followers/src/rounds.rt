use crate::made::{Made, follow, make, next, up_to};
use als_quorum::{Quorum, Wanted};
use als_record::Lsn;
use std::alloc::Global;
use std::net::{Net, TcpStream};
use std::sync::Wait;
use std::test::Fail;
use std::thread::Threads;
use std::time::{Clock, Duration};

/// Milliseconds in which a session would have told its leader of an answer.
const SOON: u64 = 100;

/// Whether a follower has acknowledged the log up to 116 in answer to a frame of this round, or does within the time.
fn has<R: Wait + Clock>(rt: &R, quorum: &Quorum, round: u64, at_most: Duration) -> bool {
    let wanted = Wanted {
        lsn: Lsn(116),
        round,
    };
    quorum.wait_for(rt, 1, wanted, at_most).is_enough
}

/// Whether a round wakes a session that has nothing to send, and what its follower answered before does not count for it,
/// and what it answers then does. None: something failed.
fn ask<R: Net<Stream = TcpStream> + Threads + Wait + Clock + Clone + Send + Sync + Drop + 'static>(
    rt: &R,
    alloc: Global,
    made: Made<R>,
) -> Option<[bool; 6]> {
    let Made {
        followers,
        tail,
        quorum,
        at,
    } = made;
    let long = Duration::from_secs(20);
    let soon = Duration::from_millis(SOON);
    let mut right = [false; 6];
    let mut stream = follow(rt, at, 16)?;
    right[0] = next(alloc, &mut stream)? == (16, 100);
    right[1] = quorum.wait_for(rt, 1, up_to(116), long).is_enough;
    let round = tail.ask(rt, Lsn(116));
    right[2] = !has(rt, &quorum, round, soon);
    // The byte before its position.
    right[3] = next(alloc, &mut stream)? == (115, 1);
    right[4] = has(rt, &quorum, round, long);
    right[5] = !has(rt, &quorum, round.saturating_add(1), soon);
    followers.close(rt);
    Some(right)
}

#[test]
fn an_answer_counts_for_the_round_of_its_frame(rt: HostRuntime) -> Result<(), Fail> {
    let alloc = rt.alloc();
    let made = make(&rt, alloc, "127.0.0.0/8")?;
    let right = ask(&rt, alloc, made);
    assert!(rt; right == Some([true; 6]));
    Ok(())
}
