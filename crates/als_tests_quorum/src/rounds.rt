use als_callers::Allowed;
use als_quorum::{Quorum, Tail, Wanted};
use als_record::Lsn;
use std::alloc::Global;
use std::net::{IpAddr, Ipv4Addr};
use std::sync::Wait;
use std::test::Fail;
use std::thread;
use std::time::{Clock, Duration};

/// Milliseconds after which the leader begins a round.
const SOON: u64 = 20;

/// A quorum with one follower, in seat 0, which has acknowledged 108. None: allocation failed.
fn followed<R: Wait + Clock>(rt: &R, alloc: Global) -> Option<Quorum> {
    let quorum = Quorum::new(alloc, 8, Allowed::new(alloc)).ok()?;
    let peer = IpAddr::V4(Ipv4Addr::new(10, 0, 0, 1));
    let seat = quorum.join(rt, peer, None)?;
    quorum.acknowledge(rt, seat, Lsn(108), 0);
    Some(quorum)
}

/// Whether the follower has acknowledged 108 in answer to a frame of this round.
fn has_answered<R: Wait + Clock>(rt: &R, quorum: &Quorum, round: u64) -> bool {
    let wanted = Wanted {
        lsn: Lsn(108),
        round,
    };
    quorum.wait_for(rt, 1, wanted, Duration::ZERO).is_enough
}

#[test]
fn what_was_acknowledged_before_is_not_of_the_round(rt: HostRuntime) -> Result<(), Fail> {
    let tail = Tail::new(Lsn(108));
    let quorum = followed(&rt, rt.alloc()).ok_or("memory")?;
    assert!(rt; has_answered(&rt, &quorum, tail.round(&rt)));
    let round = tail.ask(&rt, Lsn(108));
    assert!(rt; round == 1);
    assert!(rt; tail.round(&rt) == 1);
    assert!(rt; !has_answered(&rt, &quorum, round));
    // The answer to a frame of before.
    quorum.acknowledge(&rt, 0, Lsn(108), 0);
    assert!(rt; !has_answered(&rt, &quorum, round));
    quorum.acknowledge(&rt, 0, Lsn(108), round);
    assert!(rt; has_answered(&rt, &quorum, round));
    // An older answer takes nothing back.
    quorum.acknowledge(&rt, 0, Lsn(108), 0);
    assert!(rt; has_answered(&rt, &quorum, round));
    assert!(rt; !has_answered(&rt, &quorum, round + 1));
    Ok(())
}

#[test]
fn a_session_is_woken_by_a_round(rt: HostRuntime) -> Result<(), Fail> {
    let tail = Tail::new(Lsn(108));
    let tail = &tail;
    let rt = &rt;
    let (reach, round) = thread::join(
        rt,
        move || tail.wait_past(rt, 108, 0, Duration::from_secs(50)),
        move || {
            thread::sleep(rt, Duration::from_millis(SOON));
            tail.begin_round(rt)
        },
    );
    assert!(rt; reach.end.0 == 108);
    assert!(rt; !reach.is_closed);
    assert!(rt; round == 1);
    // It does not sleep where the round began before.
    let reach = tail.wait_past(rt, 108, 0, Duration::from_secs(50));
    assert!(rt; reach.end.0 == 108);
    Ok(())
}
