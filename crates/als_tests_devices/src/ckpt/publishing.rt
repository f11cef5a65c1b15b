ghost use Rattle.std.specs.Prelude.{◌≡◌, ◌<◌, true};

use super::checkpoints::{checkpoint_bytes, marked, published};
use als_ckpt::{Control, Region};
use als_disk::{BlockDisk, FailingDisk, Fuse, MemDisk};
use std::alloc::Global;
use std::process::Abort;

/// Whether the checkpoint at that position stands in two blocks. `None`: the device failed.
pub(crate) fn stands_at<D: BlockDisk>(disk: &mut D, block: u64, position: u8) -> Option<bool> {
    let bytes = checkpoint_bytes(position);
    let (first, second) = bytes.split_at(512);
    let (mut one, mut two) = ([7; 512], [7; 512]);
    if block >= 320 || disk.blocks() < 321 {
        return None;
    }
    disk.read(block, &mut one).ok()?;
    disk.read(block + 1, &mut two).ok()?;
    Some(one.as_slice() == first && two.as_slice() == second)
}

/// Whether a checkpoint is published over a device of which this call fails.
fn publishes(alloc: Global, call: u64) -> bool
    requires { 0 < call }
{
    let Ok(fuse) = Fuse::new(alloc) else {
        return false;
    };
    fuse.fail_at(call);
    match marked(FailingDisk::new(MemDisk::new(alloc, 321), fuse)) {
        Some(mut control) => published(&mut control, alloc, 108).is_some(),
        None => false,
    }
}

#[test]
fn each_call_for_a_checkpoint_fails_in_turn(rt: HostRuntime) {
    for call in 1..10 {
        assert!(rt; !publishes(rt.alloc(), call), "{call}");
    }
    assert!(rt; publishes(rt.alloc(), 10) || publishes(rt.alloc(), 10));
}

/// The region and the position that the newest state names.
fn expect_place<D: BlockDisk>(rt: &impl Abort, control: &Control<D>, region: Region, at: u64) {
    let state = control.newest();
    assert!(rt; state.published == Some(region));
    assert!(rt; state.position.0 == at);
}

/// Three checkpoints, and the regions that they take. `None`: allocation failed.
fn three_published<D: BlockDisk>(
    rt: &impl Abort,
    control: &mut Control<D>,
    alloc: Global,
) -> Option<()>
    requires pages { control.old.pages ≡ 64 }
    requires sure { control.old.sure ≡ true }
{
    published(control, alloc, 108)?;
    expect_place(rt, control, Region::First, 108);
    published(control, alloc, 116)?;
    expect_place(rt, control, Region::Second, 116);
    published(control, alloc, 200)?;
    expect_place(rt, control, Region::First, 200);
    Some(())
}

/// The same, and where the last two stand. `None`: allocation failed.
fn takes_regions_in_turn(rt: &impl Abort, alloc: Global) -> Option<()> {
    let mut control = marked(MemDisk::new(alloc, 321))?;
    three_published(rt, &mut control, alloc)?;
    let mut disk = control.into_disk();
    assert!(rt; stands_at(&mut disk, 1, 200) == Some(true));
    assert!(rt; stands_at(&mut disk, 161, 116) == Some(true));
    Some(())
}

#[test]
fn checkpoints_take_the_regions_in_turn(rt: HostRuntime) {
    let alloc = rt.alloc();
    let done = takes_regions_in_turn(&rt, alloc).is_some();
    assert!(rt; done || takes_regions_in_turn(&rt, alloc).is_some());
}
