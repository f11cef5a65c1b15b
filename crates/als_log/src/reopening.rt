// The last bytes of a text that stands on a device.
ghost use Rattle.std.specs.Prelude.{◌≡◌, ℕ, ◌<◌, ◌≤◌, ◌+◌, ◌*◌, List, length, drop, OnOk, IfOk};
ghost use Rattle.std.specs.Prelude.{IfErr};
ghost use Rattle.als_disk.specs.Slot.{SameBlocks};
ghost use Rattle.als_log.specs.Outcomes.{FailsToOpen};
ghost use Rattle.als_log.specs.Texts.{AllHaveText};

use crate::fault::Fault;
use als_disk::BlockDisk;
use std::alloc::Global;

/// The first bytes of a block, so many. Where none is wanted the device is not read.
pub(crate) fn read_front<D: BlockDisk>(
    alloc: Global,
    disk: &mut D,
    i: u64,
    len: usize,
) -> Result<Vec<u8>, Fault>
    requires len { len ≤ 512 }
    requires block { 0 < len → i < D.block_count disk.old }
    // For every text that ends there and stands on the device, they are its last ones.
    ensures ok { IfOk result (λ bytes. (text : List ℕ)
        → AllHaveText (λ b. (D.slot disk.old b).readable) text (512 * i + len)
        → length text ≡ 512 * i + len → bytes.items ≡ drop (512 * i) text) }
    ensures err { IfErr result (λ e. FailsToOpen e (D.failures disk.old) (D.failures disk.new)) }
    ensures done { OnOk result (D.failures disk.new ≡ D.failures disk.old) }
    ensures same { SameBlocks (D.slot disk.old) (D.slot disk.new) }
    ensures count { D.block_count disk.new ≡ D.block_count disk.old }
    ensures attempts { D.attempts disk.new ≡ D.attempts disk.old }
{
    let mut bytes = Vec::with_capacity(alloc, 512)?;
    let mut block = [0; 512];
    if 0 < len {
        disk.read(i, &mut block)?;
    }
    bytes.extend_from_slice(&block[..len])?;
    Ok(bytes)
}
