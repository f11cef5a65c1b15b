use als_callers::{Allowed, Block};
use std::alloc::Global;
use std::net::IpAddr;
use std::test::Fail;

/// Whether a text names a block which has that address. None: one of them is no such thing.
fn has(block: &str, peer: &str) -> Option<bool> {
    let peer = peer.parse::<IpAddr>().ok()?;
    Some(Block::parse(block)?.has(peer))
}

#[test]
fn a_block_has_its_addresses(rt: HostRuntime) -> Result<(), Fail> {
    let rows = [
        ("10.1.2.3", "10.1.2.3", true),
        ("10.1.2.3", "10.1.2.4", false),
        ("10.1.2.0/24", "10.1.2.255", true),
        ("10.1.2.0/24", "10.1.3.0", false),
        ("10.1.2.0/23", "10.1.3.0", true),
        ("0.0.0.0/0", "255.1.1.1", true),
        ("0.0.0.0/0", "::1", false),
        ("10.1.2.3/32", "::ffff:10.1.2.3", true),
        ("fd00::/8", "fdff::1", true),
        ("fd00::/8", "fc00::1", false),
        ("::/0", "fe80::1", true),
        ("::/0", "::ffff:10.1.2.3", false),
        ("::1", "::1", true),
    ];
    for (block, peer, wanted) in rows {
        assert!(rt; has(block, peer) == Some(wanted), "{block} {peer}");
    }
    Ok(())
}

#[test]
fn what_is_no_block(rt: HostRuntime) -> Result<(), Fail> {
    let texts = [
        "",
        "a",
        "10.1.2",
        "10.1.2.3/33",
        "10.1.2.3/",
        "10.1.2.3/8/8",
        "10.1.2.3/-1",
        "::1/129",
        "::ffff:10.1.2.3",
        "/8",
    ];
    for text in texts {
        assert!(rt; Block::parse(text).is_none(), "{text}");
    }
    Ok(())
}

/// Whether an address may come, where these two blocks are named. None: allocation failed.
fn admits(alloc: Global, peer: &str) -> Option<bool> {
    let mut allowed = Allowed::new(alloc);
    allowed.add(Block::parse("10.0.0.0/8")?).ok()?;
    allowed.add(Block::parse("::1")?).ok()?;
    Some(allowed.admits(peer.parse::<IpAddr>().ok()?))
}

#[test]
fn who_may_come(rt: HostRuntime) -> Result<(), Fail> {
    let alloc = rt.alloc();
    let rows = [("10.2.3.4", true), ("::1", true), ("192.168.0.1", false)];
    for (peer, wanted) in rows {
        let found = admits(alloc, peer).or(admits(alloc, peer));
        assert!(rt; found == Some(wanted), "{peer}");
    }
    let stranger = "192.168.0.1".parse::<IpAddr>().or(Err("an address"))?;
    assert!(rt; Allowed::new(alloc).admits(stranger));
    Ok(())
}
