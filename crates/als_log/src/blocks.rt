// What is done to the device, and which bytes of a text it has then.
ghost use Rattle.std.specs.Prelude.{◌≡◌, ℕ, ◌<◌, ◌≤◌, ◌+◌, ◌*◌, List, length, min, slice_index};
ghost use Rattle.std.specs.Prelude.{OnOk, OnErr};
ghost use Rattle.als_disk.specs.Failures.{CountsFailure};
ghost use Rattle.als_disk.specs.Slot.{IsSettled, SameBlocks, SameBlocksBut};
ghost use Rattle.als_log.specs.Texts.{HasText};
ghost use Rattle.als_log.specs.Held.{IsStored};

use als_disk::{BlockDisk, DeviceError};

/// A block that begins with these bytes, with zeros behind them.
fn padded(front: &[u8]) -> [u8; 512]
    requires { length front.now ≤ 512 }
    ensures { (o : ℕ) → o < 512 → slice_index result o ≡ slice_index front.now o }
{
    let mut block = [0; 512];
    block[..front.len()].copy_from_slice(front);
    block
}

/// The block of bytes that begins at a place, with zeros behind the last one.
pub(crate) fn block_at(bytes: &[u8], start: usize) -> [u8; 512]
    requires { start ≤ length bytes.now }
    ensures { (o : ℕ) → o < 512 → slice_index result o ≡ slice_index bytes.now (start + o) }
{
    let (_, rest) = bytes.split_at(start);
    let (front, _) = rest.split_at(rest.len().min(512));
    padded(front)
}

/// Writes a block of a text of which the blocks below it are written.
pub(crate) fn write<D: BlockDisk>(
    disk: &mut D,
    i: u64,
    block: &[u8; 512],
) -> Result<(), DeviceError>
    requires { i < D.block_count disk.old }
    ensures ok { OnOk result ((text : List ℕ) (end front synced : ℕ) → 512 * i ≤ front
        → HasText text end i block.now → IsStored (D.slot disk.old) text front synced → synced ≤ end
        → IsStored (D.slot disk.new) text (min end (512 * i + 512)) synced) }
    ensures err { OnErr result ((text : List ℕ) (end front synced : ℕ)
        → HasText text end i block.now → IsStored (D.slot disk.old) text front synced → front ≤ end
        → synced ≤ end → IsStored (D.slot disk.new) text front synced) }
    ensures others { SameBlocksBut i (D.slot disk.old) (D.slot disk.new) }
    ensures count { D.block_count disk.new ≡ D.block_count disk.old }
    ensures failures { CountsFailure result (D.failures disk.old) (D.failures disk.new) }
    ensures attempts { D.attempts disk.new ≡ D.attempts disk.old + 1 }
{
    disk.write(i, block)?;
    Ok(())
}

/// Makes what is written of a text certain to survive a crash.
pub(crate) fn sync<D: BlockDisk>(disk: &mut D) -> Result<(), DeviceError>
    ensures ok { OnOk result ((text : List ℕ) (front synced whole : ℕ) → whole ≤ front
        → IsStored (D.slot disk.old) text front synced
        → IsStored (D.slot disk.new) text front whole) }
    ensures err { OnErr result ((text : List ℕ) (front synced : ℕ) → synced ≤ front
        → IsStored (D.slot disk.old) text front synced
        → IsStored (D.slot disk.new) text front synced) }
    ensures settled { OnOk result ((k : ℕ) → IsSettled (D.slot disk.new k)) }
    ensures same { OnErr result (SameBlocks (D.slot disk.old) (D.slot disk.new)) }
    ensures count { D.block_count disk.new ≡ D.block_count disk.old }
    ensures failures { CountsFailure result (D.failures disk.old) (D.failures disk.new) }
    ensures attempts { D.attempts disk.new ≡ D.attempts disk.old + 1 }
{
    disk.sync()?;
    Ok(())
}

/// Writes the first bytes of a text into block 0, with zeros behind them, and syncs.
pub(crate) fn lay_out<D: BlockDisk>(device: &mut D, front: &[u8]) -> Result<(), DeviceError>
    requires some { 1 ≤ D.block_count device.old }
    requires front { length front.now ≡ 16 }
    ensures ok { OnOk result (IsStored (D.slot device.new) front.now 16 16) }
    ensures settled { OnOk result ((k : ℕ) → IsSettled (D.slot device.new k)) }
    ensures count { D.block_count device.new ≡ D.block_count device.old }
    ensures failures { CountsFailure result (D.failures device.old) (D.failures device.new) }
    ensures attempts { OnOk result (D.attempts device.new ≡ D.attempts device.old + 2) }
{
    let block = block_at(front, 0);
    device.write(0, &block)?;
    device.sync()?;
    Ok(())
}
