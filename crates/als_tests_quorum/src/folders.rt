use crate::wanting::up_to;
use als_callers::{Allowed, Block};
use als_quorum::{FolderId, Roll};
use als_record::Lsn;
use std::alloc::Global;
use std::net::{IpAddr, Ipv4Addr};
use std::test::Fail;
use std::time::Duration;

/// The IPv4 address with this last byte.
fn v4(last: u8) -> IpAddr {
    IpAddr::V4(Ipv4Addr::new(10, 0, 0, last))
}

/// The id of which each byte is this one.
fn id(byte: u8) -> Option<FolderId> {
    Some(FolderId { bytes: [byte; 16] })
}

/// A time.
fn at(seconds: u64) -> Duration {
    Duration::from_secs(seconds)
}

/// A folder whose session hangs is refused from another address, and again once that session has ended; its
/// acknowledgement counts from then on. None: allocation failed.
fn comes_back(alloc: Global) -> Option<[bool; 5]> {
    let all = Allowed::new(alloc);
    let mut roll = Roll::new(alloc, 8).ok()?;
    let hung = roll.join(v4(2), id(1), at(1))?;
    roll.acknowledge(hung, Lsn(108), 0, at(2));
    let refused = roll.join(v4(3), id(1), at(3)).is_none();
    let once = roll.has_enough(&all, 1, up_to(108)) && !roll.has_enough(&all, 2, up_to(108));
    roll.leave(hung);
    let back = roll.join(v4(3), id(1), at(4))?;
    let forgotten = !roll.has_enough(&all, 1, up_to(108));
    roll.acknowledge(back, Lsn(108), 0, at(5));
    let counts = roll.has_enough(&all, 1, up_to(108));
    let alone = !roll.has_enough(&all, 2, up_to(108));
    Some([refused, once, forgotten, counts, alone])
}

#[test]
fn a_folder_has_one_seat(rt: HostRuntime) -> Result<(), Fail> {
    let alloc = rt.alloc();
    let found = comes_back(alloc).or(comes_back(alloc));
    assert!(rt; found == Some([true; 5]));
    Ok(())
}

/// How many of these three followers are enough, once each has acknowledged 108. None: allocation failed, or one
/// found no seat.
fn enough(alloc: Global, peers: [(IpAddr, Option<FolderId>); 3], counts: &str) -> Option<u32> {
    let mut allowed = Allowed::new(alloc);
    allowed.add(Block::parse(counts)?).ok()?;
    let mut roll = Roll::new(alloc, 8).ok()?;
    for (peer, id) in peers {
        let seat = roll.join(peer, id, at(1))?;
        roll.acknowledge(seat, Lsn(108), 0, at(2));
    }
    let mut most = 0;
    for count in 0..4 {
        if roll.has_enough(&allowed, count, up_to(108)) {
            most = count;
        }
    }
    Some(most)
}

/// The same, tried twice.
fn most(alloc: Global, peers: [(IpAddr, Option<FolderId>); 3], counts: &str) -> Option<u32> {
    enough(alloc, peers, counts).or(enough(alloc, peers, counts))
}

#[test]
fn folders_count_and_else_addresses(rt: HostRuntime) -> Result<(), Fail> {
    let alloc = rt.alloc();
    let near = "10.0.0.0/24";
    // Two folders at one address are two; a follower without an id counts by its address.
    assert!(rt; most(alloc, [(v4(1), id(1)), (v4(1), id(2)), (v4(1), None)], near) == Some(3));
    assert!(rt; most(alloc, [(v4(1), None), (v4(1), None), (v4(2), id(2))], near) == Some(2));
    // The addresses stay a filter.
    assert!(rt;
        most(
            alloc,
            [(v4(1), id(1)), (v4(2), id(2)), (v4(3), id(3))],
            "10.0.0.2"
        ) == Some(1)
    );
    Ok(())
}
