ghost use Rattle.std.specs.Prelude.{◌≡◌, ◌<◌, ◌+◌, ℕ, Contains, OnOk, OnErr};
ghost use Rattle.als_disk.specs.Failures.{CountsFailure};
ghost use Rattle.als_disk.specs.Slot.{Slot, written, FailsToWrite, KeepsReadable, SameBlocks};
ghost use Rattle.als_disk.specs.Slot.{SameBlocksBut, HoldsBlocks, GivesCandidates};

use crate::DeviceError;

/// A row of blocks of 512 bytes.
///
/// A write is certain to survive a crash only from the next successful sync on: until then a crash
/// may leave the content of the last sync, or that of any write since. A block is written as a
/// whole or not at all, and nobody else writes the device.
pub trait BlockDisk {
    /// How many blocks there are.
    ghost block_count: { Self → ℕ };

    /// What stands in each block.
    ghost slot: { Self → ℕ → Slot };

    /// How often a call has failed. It is a true count, which never wraps.
    ghost failures: { Self → ℕ };

    /// How often a write or a sync was called for, failed ones too; reads are not counted. It is a
    /// true count, which never wraps.
    ghost attempts: { Self → ℕ };

    /// How many blocks there are.
    fn blocks(&self) -> u64
        ensures { result ≡ block_count self.now };

    /// Reads a block. A read that fails leaves the buffer as it was.
    fn read(&mut self, i: u64, into: &mut [u8; 512]) -> Result<(), DeviceError>
        requires { i < block_count self.old }
        ensures ok { OnOk result (Contains (slot self.old i).readable into.new) }
        ensures err { OnErr result (into.new ≡ into.old) }
        ensures blocks { SameBlocks (slot self.old) (slot self.new) }
        ensures count { block_count self.new ≡ block_count self.old }
        ensures failures { CountsFailure result (failures self.old) (failures self.new) }
        ensures attempts { attempts self.new ≡ attempts self.old };

    /// Writes a block.
    fn write(&mut self, i: u64, block: &[u8; 512]) -> Result<(), DeviceError>
        requires { i < block_count self.old }
        ensures ok { OnOk result (slot self.new i ≡ written (slot self.old i) block.now) }
        ensures err { OnErr result (FailsToWrite (slot self.old i) (slot self.new i) block.now) }
        ensures others { SameBlocksBut i (slot self.old) (slot self.new) }
        ensures count { block_count self.new ≡ block_count self.old }
        ensures failures { CountsFailure result (failures self.old) (failures self.new) }
        ensures attempts { attempts self.new ≡ attempts self.old + 1 };

    /// Leaves in each block what a read gives, so that a crash leaves nothing else. A sync that
    /// fails changes nothing.
    fn sync(&mut self) -> Result<(), DeviceError>
        ensures ok { OnOk result ((k : ℕ) → KeepsReadable (slot self.old k) (slot self.new k)) }
        ensures err { OnErr result (SameBlocks (slot self.old) (slot self.new)) }
        ensures count { block_count self.new ≡ block_count self.old }
        ensures failures { CountsFailure result (failures self.old) (failures self.new) }
        ensures attempts { attempts self.new ≡ attempts self.old + 1 };

    /// A read may give something, and nothing that a crash may not leave.
    ghost gives_candidates: { (disk : Self) → GivesCandidates (slot disk) };

    /// Each content is that of a block, of 512 bytes.
    ghost holds_blocks: { (disk : Self) → HoldsBlocks (slot disk) };
}
