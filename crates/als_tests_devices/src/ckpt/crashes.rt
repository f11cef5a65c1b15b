use super::checkpoints::{marked, named, published, written};
use super::crashed;
use super::publishing::stands_at;
use als_ckpt::{Control, Region, read_state};
use als_disk::{MemDisk, Restart};
use std::alloc::Global;
use std::process::Abort;

/// The position of the state that a crash with these picks leaves, with its whole checkpoint in its
/// region. `None`: there is none.
fn left_whole<D: Restart + Drop>(control: Control<D>, picks: &[u8]) -> Option<u64> {
    let (mut disk, _) = crashed(control, picks);
    if disk.blocks() < 321 {
        return None;
    }
    let state = read_state(&mut disk, 64, 4096).ok()?;
    let first = match state.published? {
        Region::First => 1,
        Region::Second => 161,
    };
    let position = state.position.0;
    if position > 255 || !stands_at(&mut disk, first, position as u8)? {
        return None;
    }
    Some(position)
}

/// What is left where a second checkpoint is published and not synced. `None`: allocation failed.
fn left_of_a_publish(alloc: Global, picks: &[u8]) -> Option<u64> {
    let mut control = marked(MemDisk::new(alloc, 321))?;
    published(&mut control, alloc, 108)?;
    named(&mut control, alloc, 116)?;
    left_whole(control, picks)
}

/// What is left where the blocks of a second checkpoint are written and not synced. `None`: memory
/// was refused.
fn left_of_blocks(alloc: Global, picks: &[u8]) -> Option<u64> {
    let mut control = marked(MemDisk::new(alloc, 321))?;
    published(&mut control, alloc, 108)?;
    written(&mut control, alloc, 116)?;
    left_whole(control, picks)
}

/// A crash amid the blocks leaves this position, by a second try where allocation failed.
fn leaves(rt: &impl Abort, alloc: Global, picks: &[u8], wanted: u64) {
    let left = left_of_blocks(alloc, picks);
    assert!(rt; left == Some(wanted) || left_of_blocks(alloc, picks) == Some(wanted));
}

#[test]
fn a_crash_leaves_a_whole_checkpoint(rt: HostRuntime) {
    let alloc = rt.alloc();
    for (pick, wanted) in [(0, 108), (1, 116)] {
        let left = left_of_a_publish(alloc, &[pick]);
        assert!(rt; left == Some(wanted) || left_of_a_publish(alloc, &[pick]) == Some(wanted));
    }
}

#[test]
fn a_crash_amid_the_blocks_leaves_the_older(rt: HostRuntime) {
    for picks in [[0, 0], [1, 0], [0, 1], [1, 1]] {
        leaves(&rt, rt.alloc(), &picks, 108);
    }
}
