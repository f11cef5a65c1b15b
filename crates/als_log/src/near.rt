// The blocks of a text that were read last.
ghost use Rattle.std.specs.Prelude.{◌≡◌, ℕ, ◌<◌, ◌≤◌, ◌+◌, ◌*◌, List, length, None, OnOk};
ghost use Rattle.als_disk.specs.Failures.{CountsFailure};
ghost use Rattle.als_disk.specs.Slot.{SameBlocks};
ghost use Rattle.als_log.specs.Near.{IsNear, IsBlockBelow, block_of};
ghost use Rattle.als_log.specs.Texts.{AllHaveText};

use crate::kept_block::KeptBlock;
use als_disk::{BlockDisk, DeviceError};

/// The blocks of a text that were read last, so that one read of the device serves all records in a
/// block.
///
/// One with an even number and one with an odd number: a record may lie in two blocks, and reading
/// it must not forget the first, in which its neighbour lies. Only blocks that are never written
/// again are kept: those that end at or below the base.
#[derive(Drop)]
pub(crate) struct Near {
    even: KeptBlock,
    odd: KeptBlock,
}

impl Near {
    /// No block.
    pub(crate) fn new() -> Near
        ensures even { result.even.index ≡ None }
        ensures odd { result.odd.index ≡ None }
    {
        Near {
            even: KeptBlock::new(),
            odd: KeptBlock::new(),
        }
    }

    /// Keeps a block of a text below the base. The device is read where it was not kept.
    pub(crate) fn fetch<D: BlockDisk>(&mut self, disk: &mut D, i: u64) -> Result<(), DeviceError>
        requires { i < D.block_count disk.old }
        ensures ok { OnOk result ((text : List ℕ) (base : ℕ) → 512 * i + 512 ≤ base
            → AllHaveText (λ b. (D.slot disk.old b).readable) text base
            → IsNear self.old text base → IsBlockBelow i (block_of self.new i) text base) }
        ensures near { (text : List ℕ) (base : ℕ) → 512 * i + 512 ≤ base
            → AllHaveText (λ b. (D.slot disk.old b).readable) text base
            → IsNear self.old text base → IsNear self.new text base }
        ensures same { SameBlocks (D.slot disk.old) (D.slot disk.new) }
        ensures count { D.block_count disk.new ≡ D.block_count disk.old }
        ensures attempts { D.attempts disk.new ≡ D.attempts disk.old }
        ensures failures { CountsFailure result (D.failures disk.old) (D.failures disk.new) }
    {
        if i % 2 == 0 {
            self.even.fetch(disk, i)?;
            return Ok(());
        }
        self.odd.fetch(disk, i)?;
        Ok(())
    }

    /// The bytes that are kept where those of a block would be.
    pub(crate) fn block(&self, i: u64) -> &[u8]
        ensures value { result.now ≡ block_of self.now i }
        ensures len { length result.now ≡ 512 }
    {
        if i % 2 == 0 {
            self.even.as_slice()
        } else {
            self.odd.as_slice()
        }
    }
}
