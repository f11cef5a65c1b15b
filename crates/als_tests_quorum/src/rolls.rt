use crate::wanting::up_to;
use als_callers::{Allowed, Block};
use als_quorum::Roll;
use als_record::Lsn;
use std::alloc::Global;
use std::net::{IpAddr, Ipv4Addr, Ipv6Addr};
use std::test::Fail;
use std::time::Duration;

/// The IPv4 address with this last byte.
fn v4(last: u8) -> IpAddr {
    IpAddr::V4(Ipv4Addr::new(10, 0, 0, last))
}

/// The same as an IPv4-mapped address.
fn mapped(last: u8) -> IpAddr {
    IpAddr::V6(Ipv6Addr::new(0, 0, 0, 0, 0, 0xffff, 0x0a00, u16::from(last)))
}

/// A time.
fn at(seconds: u64) -> Duration {
    Duration::from_secs(seconds)
}

/// A roll with this many seats. None: allocation failed.
fn roll(alloc: Global, seats: u32) -> Option<Roll> {
    Roll::new(alloc, seats).ok()
}

/// The LSN that the row of a seat has acknowledged. None: the seat is free.
fn acknowledged(roll: &Roll, seat: usize) -> Option<u64> {
    let rows = roll.rows();
    if seat < rows.len() {
        rows[seat].map(|row| row.acknowledged.0)
    } else {
        None
    }
}

/// Seats are taken in order; a ninth finds none, and one that left is free again.
fn seats_are_taken(alloc: Global) -> Option<bool> {
    let mut roll = roll(alloc, 9)?;
    let mut right = true;
    for seat in 0..8 {
        right = right && roll.join(v4(1), None, at(1)) == Some(seat);
    }
    right = right && roll.join(v4(2), None, at(1)).is_none();
    roll.leave(3);
    Some(right && roll.join(v4(2), None, at(1)) == Some(3))
}

#[test]
fn a_ninth_finds_no_seat(rt: HostRuntime) -> Result<(), Fail> {
    let alloc = rt.alloc();
    let found = seats_are_taken(alloc).or(seats_are_taken(alloc));
    assert!(rt; found == Some(true));
    Ok(())
}

/// A mark rises and does not fall; it is forgotten once its session has left.
fn marks_rise(alloc: Global) -> Option<[Option<u64>; 5]> {
    let mut roll = roll(alloc, 2)?;
    let mut seen = [None; 5];
    let one = roll.join(v4(1), None, at(1))?;
    let two = roll.join(v4(2), None, at(1))?;
    roll.acknowledge(one, Lsn(108), 0, at(2));
    seen[0] = acknowledged(&roll, 0);
    roll.acknowledge(one, Lsn(52), 0, at(3));
    seen[1] = acknowledged(&roll, 0);
    seen[2] = acknowledged(&roll, 1);
    roll.leave(one);
    roll.acknowledge(one, Lsn(108), 0, at(4));
    seen[3] = acknowledged(&roll, 0);
    roll.acknowledge(two, Lsn(16), 0, at(4));
    roll.join(v4(1), None, at(5))?;
    seen[4] = acknowledged(&roll, 0);
    Some(seen)
}

#[test]
fn a_mark_never_falls_but_with_its_session(rt: HostRuntime) -> Result<(), Fail> {
    let alloc = rt.alloc();
    let seen = marks_rise(alloc).or(marks_rise(alloc));
    let wanted = [Some(108), Some(108), Some(0), None, Some(0)];
    assert!(rt; seen == Some(wanted));
    Ok(())
}

/// The addresses of one block. None: allocation failed.
fn block(alloc: Global, text: &str) -> Option<Allowed> {
    let mut allowed = Allowed::new(alloc);
    allowed.add(Block::parse(text)?).ok()?;
    Some(allowed)
}

/// The most of 0, 1, 2, 3 followers that are enough, once these three have joined and acknowledged 108, where
/// the addresses of this block count.
fn enough(alloc: Global, peers: [IpAddr; 3], counts: &str) -> Option<u32> {
    let allowed = block(alloc, counts)?;
    let mut roll = roll(alloc, 8)?;
    for peer in peers {
        let seat = roll.join(peer, None, at(1))?;
        roll.acknowledge(seat, Lsn(108), 0, at(2));
    }
    let mut most = 0;
    for count in 0..4 {
        if roll.has_enough(&allowed, count, up_to(108)) {
            most = count;
        }
    }
    if roll.has_enough(&allowed, 1, up_to(109)) {
        return None;
    }
    Some(most)
}

/// The same, tried twice.
fn most(alloc: Global, peers: [IpAddr; 3], counts: &str) -> Option<u32> {
    enough(alloc, peers, counts).or(enough(alloc, peers, counts))
}

#[test]
fn an_address_counts_once(rt: HostRuntime) -> Result<(), Fail> {
    let alloc = rt.alloc();
    let near = "10.0.0.0/24";
    assert!(rt; most(alloc, [v4(1), v4(2), v4(3)], near) == Some(3));
    assert!(rt; most(alloc, [v4(1), v4(2), v4(1)], near) == Some(2));
    assert!(rt; most(alloc, [v4(1), mapped(1), v4(1)], near) == Some(1));
    Ok(())
}

#[test]
fn a_stranger_does_not_count(rt: HostRuntime) -> Result<(), Fail> {
    let alloc = rt.alloc();
    assert!(rt; most(alloc, [v4(1), v4(2), v4(3)], "10.0.1.0/24") == Some(0));
    assert!(rt; most(alloc, [v4(1), v4(2), v4(3)], "10.0.0.2/31") == Some(2));
    assert!(rt; most(alloc, [v4(1), mapped(2), v4(3)], "10.0.0.2") == Some(1));
    Ok(())
}
