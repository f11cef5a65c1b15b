use crate::wanting::up_to;
use als_callers::{Allowed, Block};
use als_quorum::Quorum;
use als_record::Lsn;
use std::alloc::Global;
use std::net::{IpAddr, Ipv4Addr};
use std::sync::Wait;
use std::test::Fail;
use std::thread;
use std::time::{Clock, Duration};

/// No time.
const NONE: Duration = Duration::ZERO;

/// The IPv4 address with this last byte.
fn v4(last: u8) -> IpAddr {
    IpAddr::V4(Ipv4Addr::new(10, 0, 0, last))
}

/// A quorum with a follower at each of two addresses, in seats 0 and 1. None: allocation failed.
fn two<R: Wait + Clock>(rt: &R, alloc: Global) -> Option<Quorum> {
    let quorum = Quorum::new(alloc, 8, Allowed::new(alloc)).ok()?;
    quorum.join(rt, v4(1), None)?;
    quorum.join(rt, v4(2), None)?;
    Some(quorum)
}

/// The same, tried twice.
fn made<R: Wait + Clock>(rt: &R, alloc: Global) -> Option<Quorum> {
    two(rt, alloc).or(two(rt, alloc))
}

/// Waits for two followers, at most this many milliseconds.
fn wait_for_two<R: Wait + Clock>(rt: &R, quorum: &Quorum, millis: u64) -> bool {
    quorum
        .wait_for(rt, 2, up_to(108), Duration::from_millis(millis))
        .is_enough
}

/// Acknowledges in both seats, one after another.
fn acknowledge_both<R: Wait + Clock>(rt: &R, quorum: &Quorum) {
    thread::sleep(rt, Duration::from_millis(20));
    quorum.acknowledge(rt, 1, Lsn(108), 0);
    thread::sleep(rt, Duration::from_millis(20));
    quorum.acknowledge(rt, 0, Lsn(200), 0);
}

#[test]
fn a_leader_is_woken(rt: HostRuntime) -> Result<(), Fail> {
    let quorum = made(&rt, rt.alloc()).ok_or("memory")?;
    let quorum = &quorum;
    let rt = &rt;
    let (found, ()) = thread::join(
        rt,
        move || wait_for_two(rt, quorum, 50_000),
        move || acknowledge_both(rt, quorum),
    );
    assert!(rt; found);
    assert!(rt; quorum.wait_for(rt, 2, up_to(108), NONE).is_enough);
    assert!(rt; quorum.wait_for(rt, 0, up_to(1_000), NONE).is_enough);
    assert!(rt; !quorum.wait_for(rt, 2, up_to(109), NONE).is_enough);
    Ok(())
}

#[test]
fn a_leader_gives_up_in_time(rt: HostRuntime) -> Result<(), Fail> {
    let quorum = made(&rt, rt.alloc()).ok_or("memory")?;
    quorum.acknowledge(&rt, 0, Lsn(108), 0);
    assert!(rt; !wait_for_two(&rt, &quorum, 20));
    quorum.acknowledge(&rt, 1, Lsn(108), 0);
    assert!(rt; wait_for_two(&rt, &quorum, 20));
    quorum.leave(&rt, 1);
    assert!(rt; !wait_for_two(&rt, &quorum, 20));
    Ok(())
}

/// Closes a quorum after a while.
fn close_late<R: Wait + Clock>(rt: &R, quorum: &Quorum) {
    thread::sleep(rt, Duration::from_millis(20));
    quorum.close(rt);
}

#[test]
fn a_close_wakes_who_waits(rt: HostRuntime) -> Result<(), Fail> {
    let quorum = made(&rt, rt.alloc()).ok_or("memory")?;
    let quorum = &quorum;
    let rt = &rt;
    let (found, ()) = thread::join(
        rt,
        move || wait_for_two(rt, quorum, 50_000),
        move || close_late(rt, quorum),
    );
    assert!(rt; !found);
    Ok(())
}

#[test]
fn rows_are_copied(rt: HostRuntime) -> Result<(), Fail> {
    let quorum = made(&rt, rt.alloc()).ok_or("memory")?;
    quorum.acknowledge(&rt, 1, Lsn(108), 0);
    let [one, two, three, ..] = quorum.members(&rt);
    assert!(rt; three.is_none());
    assert!(rt; one.map(|member| member.row.acknowledged.0) == Some(0));
    assert!(rt; two.map(|member| member.row.acknowledged.0) == Some(108));
    assert!(rt; one.map(|member| member.row.heard.is_some()) == Some(false));
    assert!(rt; two.map(|member| member.row.heard.is_some()) == Some(true));
    assert!(rt; two.map(|member| member.counts) == Some(true));
    Ok(())
}

/// A quorum where one address counts, with a stranger in seat 0 and a follower at that address in seat 1. None:
/// allocation failed.
fn one_and_a_stranger<R: Wait + Clock>(rt: &R, alloc: Global) -> Option<Quorum> {
    let mut allowed = Allowed::new(alloc);
    allowed.add(Block::parse("10.0.0.2")?).ok()?;
    let quorum = Quorum::new(alloc, 8, allowed).ok()?;
    quorum.join(rt, v4(9), None)?;
    quorum.join(rt, v4(2), None)?;
    Some(quorum)
}

#[test]
fn a_stranger_confirms_nothing(rt: HostRuntime) -> Result<(), Fail> {
    let alloc = rt.alloc();
    let made = one_and_a_stranger(&rt, alloc).or(one_and_a_stranger(&rt, alloc));
    let quorum = made.ok_or("memory")?;
    quorum.acknowledge(&rt, 0, Lsn(108), 0);
    assert!(rt; !quorum.wait_for(&rt, 1, up_to(108), NONE).is_enough);
    quorum.acknowledge(&rt, 1, Lsn(108), 0);
    assert!(rt; quorum.wait_for(&rt, 1, up_to(108), NONE).is_enough);
    assert!(rt; !quorum.wait_for(&rt, 2, up_to(108), NONE).is_enough);
    let [stranger, follower, ..] = quorum.members(&rt);
    assert!(rt; stranger.map(|member| member.counts) == Some(false));
    assert!(rt; follower.map(|member| member.counts) == Some(true));
    Ok(())
}
