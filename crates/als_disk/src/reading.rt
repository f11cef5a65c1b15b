// The contents of a file, each block read once at most.
ghost use Rattle.std.specs.Prelude.{◌≡◌, ◌≤◌, ◌<◌, ◌+◌, ◌*◌, ◌^◌, ℕ, length, IfOk, OnOk};
ghost use Rattle.als_disk.specs.Mirror.{mirror_blocks, mirror_slot};
ghost use Rattle.als_disk.specs.Slot.{only, IsSettled};
ghost use Rattle.als_disk.specs.Store.{zeros};

use crate::extent::Extent;
use crate::mirror::Mirror;
use crate::pieces::{PIECE, zero_piece};
use std::alloc::{AllocError, Global};
use std::io;
use std::os::unix::fs::FileExt;

/// The contents of the file's blocks, as far as they are read, each read once. What is not all zeros
/// is written back as it is read, from the block on that the extent says: the caller's next sync then
/// brings it to the disk.
pub(crate) fn mirror_of<F: FileExt>(
    alloc: Global,
    file: &F,
    blocks: u64,
    extent: Extent,
) -> io::Result<Mirror>
    requires fits { blocks * 512 < 2 ^ 64 }
    requires within { extent.read ≤ blocks }
    ensures count { IfOk result (λ mirror. mirror_blocks mirror ≡ blocks) }
    ensures settled { IfOk result (λ mirror. (k : ℕ) → IsSettled (mirror_slot mirror k)) }
    ensures above { IfOk result (λ mirror. (k : ℕ) → extent.read ≤ k
        → mirror_slot mirror k ≡ only zeros) }
{
    let mut mirror = Mirror::zeros(alloc, blocks)?;
    let mut piece = zero_piece(alloc)?;
    let mut first = 0;
    while first < extent.read {
        let count = (extent.read - first).min(PIECE);
        let held = &mut piece[..count as usize];
        file.read_exact_at(held.as_flattened_mut(), first * 512)?;
        if take_in(&mut mirror, first, held)? && extent.settled < first + count {
            file.write_all_at(held.as_flattened(), first * 512)?;
        }
        first += count;
    }
    mirror.settle();
    Ok(mirror)
}

/// Keeps the blocks of a piece, from this one on. Answers whether one is not all zeros.
fn take_in(mirror: &mut Mirror, first: u64, piece: &[[u8; 512]]) -> Result<bool, AllocError>
    requires within { first + length piece.now ≤ mirror_blocks mirror.old }
    ensures count { mirror_blocks mirror.new ≡ mirror_blocks mirror.old }
    ensures above { (k : ℕ) → first + length piece.now ≤ k
        → mirror_slot mirror.new k ≡ mirror_slot mirror.old k }
{
    let mut held = false;
    for (i, block) in piece.iter().enumerate() {
        if *block != [0; 512] {
            mirror.write(first + i as u64, block)?;
            held = true;
        }
    }
    Ok(held)
}
