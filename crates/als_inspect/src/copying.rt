ghost use Rattle.std.specs.Prelude.{◌≡◌, ◌≤◌, ◌<◌, ◌+◌, ◌*◌, ◌^◌, ℕ, length, IfOk, OnOk};
ghost use Rattle.als_disk.specs.MemDisk.{mem_blocks, mem_slot};
ghost use Rattle.als_disk.specs.Slot.{IsSettled};

use als_disk::{BlockDisk, DeviceError, MemDisk};
use als_progress::{Advance, Work};
use std::alloc::{AllocError, Global};
use std::fs::File;
use std::io;
use std::os::unix::fs::FileExt;

/// How many blocks are read at once: those of 1 MiB.
const PIECE: u64 = 2048;

/// A device in memory of so many blocks, with so many bytes of a file, and zeros behind them. A
/// block of zeros takes no memory. It fails where the file does or is shorter, or where there is no
/// memory. `advance` receives how far it was read.
pub fn copy<A: Advance>(
    alloc: Global,
    file: &File,
    len: u64,
    blocks: u64,
    advance: &mut A,
) -> io::Result<MemDisk>
    requires { len ≤ 512 * blocks }
    ensures count { IfOk result (λ disk. mem_blocks disk ≡ blocks) }
    ensures settled { IfOk result (λ disk. (k : ℕ) → IsSettled (mem_slot disk k)) }
{
    let mut disk = MemDisk::new(alloc, blocks);
    let mut piece = vec![in alloc; [0_u8; 512]; PIECE as usize]?;
    let end = len.div_ceil(512);
    let mut first = 0;
    while first < end {
        let count = (end - first).min(PIECE);
        let held = &mut piece[..count as usize];
        read_piece(file, first * 512, len, held)?;
        keep(&mut disk, first, held)?;
        first += count;
        advance.advances(Work::Copy, first.saturating_mul(512), len);
    }
    settle(&mut disk);
    Ok(disk)
}

/// Reads blocks from this offset on: the bytes of the file below its end, and zeros behind them.
fn read_piece(file: &File, at: u64, end: u64, into: &mut [[u8; 512]]) -> io::Result<()>
    requires { at < end }
    ensures { length into.new ≡ length into.old }
{
    into.fill([0; 512]);
    let bytes = into.as_flattened_mut();
    let front = (end - at).min(bytes.len() as u64);
    file.read_exact_at(&mut bytes[..front as usize], at)
}

/// Writes the blocks that are not all zeros, from this one on, and settles them.
fn keep(disk: &mut MemDisk, first: u64, blocks: &[[u8; 512]]) -> Result<(), AllocError>
    requires { first + length blocks.now ≤ mem_blocks disk.old }
    ensures count { mem_blocks disk.new ≡ mem_blocks disk.old }
{
    // Not more than fits: the numbers below do not wrap.
    let _ = disk.blocks();
    for (i, block) in blocks.iter().enumerate() {
        if *block != [0; 512] {
            match disk.write(first + i as u64, block) {
                Ok(()) => {}
                Err(DeviceError) => return Err(AllocError),
            }
        }
    }
    settle(disk);
    Ok(())
}

/// Makes the newest content of each block the only one.
fn settle(disk: &mut MemDisk)
    ensures count { mem_blocks disk.new ≡ mem_blocks disk.old }
    ensures settled { (k : ℕ) → IsSettled (mem_slot disk.new k) }
{
    match disk.sync() {
        Ok(()) => {}
        Err(DeviceError) => unreachable!(),
    }
}
