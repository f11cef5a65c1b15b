// A block of a text that was read.
ghost use Rattle.std.specs.Prelude.{◌≡◌, ℕ, ◌<◌, ◌≤◌, ◌+◌, ◌*◌, ◌↔◌, List, length, Some, None, OnOk, IsTrue};
ghost use Rattle.als_disk.specs.Failures.{CountsFailure};
ghost use Rattle.als_disk.specs.Slot.{SameBlocks};
ghost use Rattle.als_log.specs.Near.{IsKept};
ghost use Rattle.als_log.specs.Texts.{AllHaveText};

use als_disk::{BlockDisk, DeviceError};

/// A block of a text that was read, if one was.
#[derive(Drop)]
pub(crate) struct KeptBlock {
    /// Which block it is, `None` before the first read.
    index: Option<u64>,
    bytes: [u8; 512],
}

impl KeptBlock {
    /// No block.
    pub(crate) fn new() -> KeptBlock
        ensures { result.index ≡ None }
    {
        KeptBlock {
            index: None,
            bytes: [0; 512],
        }
    }

    /// Whether it is this block.
    fn holds(&self, i: u64) -> bool
        ensures { IsTrue result ↔ (self.now.index ≡ Some i) }
    {
        match self.index {
            Some(held) => held == i,
            None => false,
        }
    }

    /// Keeps a block of a text below the base. The device is read where another one was kept.
    pub(crate) fn fetch<D: BlockDisk>(&mut self, disk: &mut D, i: u64) -> Result<(), DeviceError>
        requires { i < D.block_count disk.old }
        ensures ok { OnOk result (self.new.index ≡ Some i) }
        ensures kept { (text : List ℕ) (base : ℕ) → 512 * i + 512 ≤ base
            → AllHaveText (λ b. (D.slot disk.old b).readable) text base
            → IsKept self.old text base → IsKept self.new text base }
        ensures same { SameBlocks (D.slot disk.old) (D.slot disk.new) }
        ensures count { D.block_count disk.new ≡ D.block_count disk.old }
        ensures attempts { D.attempts disk.new ≡ D.attempts disk.old }
        ensures failures { CountsFailure result (D.failures disk.old) (D.failures disk.new) }
    {
        if self.holds(i) {
            return Ok(());
        }
        disk.read(i, &mut self.bytes)?;
        self.index = Some(i);
        Ok(())
    }

    /// Its bytes, zeros before the first read.
    pub(crate) fn as_slice(&self) -> &[u8]
        ensures value { result.now ≡ self.now.bytes }
        ensures len { length result.now ≡ 512 }
    {
        self.bytes.as_slice()
    }
}
