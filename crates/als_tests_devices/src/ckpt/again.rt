// Control states that are written while the node is stopped.
ghost use Rattle.std.specs.Prelude.{◌≡◌, ◌<◌};
ghost use Rattle.als_disk.specs.Slot.{IsSettled};

use super::{disk_of, sealed_block};
use als_ckpt::{
    ControlState, Fault, Phase, Unreached, follow_again, forget_checkpoint, forget_unreached,
    read_state,
};
use als_disk::{FailingDisk, Fuse, Restart};
use als_record::Lsn;
use std::alloc::Global;

/// A block of four pages that follows, stable up to 108, with takeovers sealed at 100, 108 and
/// 5,004: it never reached the last one.
fn unreached_block() -> [u8; 512] {
    let mut block = [0; 512];
    block[..10].copy_from_slice(b"ALSCTL01\0\x02");
    block[10] = 1;
    block[15] = 4;
    block[23] = 108;
    block[43] = 3;
    block[55] = 100;
    block[63] = 108;
    block[70] = 0x13;
    block[71] = 0x8c;
    block
}

/// The sealed block once its takeover has ended, in version 2.
fn primary_block() -> [u8; 512] {
    let mut block = sealed_block();
    block[9] = 2;
    block[10] = 3;
    block[43] = 1;
    block[55] = 150;
    block
}

/// A device after a crash, and how many picks were used. Each block has one content.
fn stopped<D: Restart>(disk: D) -> (D, usize)
    ensures count { D.block_count result.0 ≡ D.block_count disk }
    ensures settled { IsSettled (D.slot result.0 0) }
{
    disk.crash(&[])
}

/// How many takeovers a block had, and what it says once these are forgotten.
fn forgotten(
    alloc: Global,
    block: &[u8; 512],
    which: Unreached,
) -> Result<(u32, ControlState), Fault> {
    let mut disk = disk_of(alloc, block)?;
    let restated = forget_unreached(&mut disk, 4, 4096, which)?;
    let (mut disk, _) = stopped(disk);
    let now = read_state(&mut disk, 4, 4096)?;
    if now != restated.after {
        return Err(Fault::BadControl);
    }
    Ok((restated.before.history.epoch(), now))
}

/// How many takeovers a block had, and how many it keeps.
fn epochs(alloc: Global, block: &[u8; 512], which: Unreached) -> Result<(u32, u32), Fault> {
    let (before, now) = forgotten(alloc, block, which)?;
    Ok((before, now.history.epoch()))
}

#[test]
fn takeovers_that_were_not_reached_are_forgotten(rt: HostRuntime) {
    let alloc = rt.alloc();
    let rows = [
        (unreached_block(), Unreached::AboveEnd, 3, 2),
        (unreached_block(), Unreached::FromEnd, 3, 1),
        // A seal of the node's own stays, also at its mark.
        (primary_block(), Unreached::FromEnd, 1, 1),
    ];
    for (block, which, before, after) in rows {
        assert!(rt; epochs(alloc, &block, which) == Ok((before, after)));
    }
}

/// The mark of the state that stays, and its last seal.
fn left(alloc: Global) -> Result<(Lsn, Lsn), Fault> {
    let (_, now) = forgotten(alloc, &unreached_block(), Unreached::AboveEnd)?;
    Ok((now.mark, now.history.last()))
}

#[test]
fn the_rest_of_the_state_stays(rt: HostRuntime) {
    assert!(rt; left(rt.alloc()) == Ok((Lsn(108), Lsn(108))));
}

/// What a block says.
fn read_again(alloc: Global, block: &[u8; 512]) -> Result<ControlState, Fault> {
    let mut disk = disk_of(alloc, block)?;
    read_state(&mut disk, 4, 4096)
}

/// What a block says once its primary follows again.
fn followed(alloc: Global, block: &[u8; 512]) -> Result<ControlState, Fault> {
    let mut disk = disk_of(alloc, block)?;
    let restated = follow_again(&mut disk, 4, 4096)?;
    let (mut disk, _) = stopped(disk);
    let now = read_state(&mut disk, 4, 4096)?;
    if now != restated.after {
        return Err(Fault::BadControl);
    }
    Ok(now)
}

#[test]
fn a_primary_follows_again(rt: HostRuntime) -> Result<(), Fault> {
    let alloc = rt.alloc();
    let primary = read_again(alloc, &primary_block())?;
    let wanted = ControlState {
        phase: Phase::Following,
        seal: Lsn(0),
        ..primary
    };
    assert!(rt; followed(alloc, &primary_block()) == Ok(wanted));
    // A node that follows stays as it is, and so does one that is sealed.
    let following = read_again(alloc, &unreached_block());
    assert!(rt; followed(alloc, &unreached_block()) == following);
    let sealed = read_again(alloc, &sealed_block());
    assert!(rt; followed(alloc, &sealed_block()) == sealed);
    Ok(())
}

/// The primary's block with a published checkpoint.
fn published_block() -> [u8; 512] {
    let mut block = primary_block();
    block[11] = 2;
    block[31] = 80;
    block
}

/// What a block says once its checkpoint is forgotten.
fn unpublished(alloc: Global, block: &[u8; 512]) -> Result<ControlState, Fault> {
    let mut disk = disk_of(alloc, block)?;
    let restated = forget_checkpoint(&mut disk, 4, 4096)?;
    let (mut disk, _) = stopped(disk);
    let now = read_state(&mut disk, 4, 4096)?;
    if now != restated.after {
        return Err(Fault::BadControl);
    }
    Ok(now)
}

#[test]
fn a_checkpoint_is_forgotten(rt: HostRuntime) -> Result<(), Fault> {
    let alloc = rt.alloc();
    let published = read_again(alloc, &published_block())?;
    assert!(rt; published.position == Lsn(80));
    let wanted = ControlState {
        published: None,
        position: Lsn(0),
        ..published
    };
    assert!(rt; unpublished(alloc, &published_block()) == Ok(wanted));
    // A node without one stays as it is.
    let following = read_again(alloc, &unreached_block());
    assert!(rt; unpublished(alloc, &unreached_block()) == following);
    Ok(())
}

/// Forgets over a device of which this call fails. `None`: allocation failed.
fn forgets_failing(alloc: Global, call: u64) -> Option<Result<(), Fault>>
    requires { 0 < call }
{
    let disk = disk_of(alloc, &unreached_block()).ok()?;
    let fuse = Fuse::new(alloc).ok()?;
    let (mut disk, _) = stopped(FailingDisk::new(disk, fuse.clone().ok()?));
    fuse.fail_at(call);
    Some(forget_unreached(&mut disk, 4, 4096, Unreached::AboveEnd).map(|_| ()))
}

#[test]
fn each_call_of_a_step_at_rest_fails_in_turn(rt: HostRuntime) {
    let alloc = rt.alloc();
    for call in 1..5 {
        let wanted = if call < 4 { Err(Fault::Device) } else { Ok(()) };
        let found = forgets_failing(alloc, call);
        assert!(rt; found == Some(wanted) || found.is_none(), "{call}");
    }
}
