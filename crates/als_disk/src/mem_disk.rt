ghost use Rattle.std.specs.Prelude.{◌≡◌, ◌<◌, ◌+◌, ℕ, Contains, IsOk, OnOk, OnErr};
ghost use Rattle.als_disk.specs.Failures.{CountsFailure};
ghost use Rattle.als_disk.specs.Slot.{only, written, HoldsBlocks, SameBlocks, SameBlocksBut};
ghost use Rattle.als_disk.specs.Store.{zeros, slot_of, HasRoom, IsInRange};
ghost use Rattle.als_disk.specs.Store.{slot_of-gives_candidates};

use crate::count::Count;
use crate::store::{self, Writes};
use crate::synced::Synced;
use crate::{BlockDisk, DeviceError, Restart};
use std::alloc::{AllocError, Global};
use std::collections::BTreeMap;

/// A device in memory. Only the blocks that were written take room. A write for whose content there
/// is no memory fails and changes nothing; nothing else fails.
pub struct MemDisk {
    alloc: Global,
    blocks: u64,
    synced: Synced,
    unsynced: Writes,
    failed: Count,
    attempted: Count,
    ghost room: { HasRoom synced unsynced },
    ghost in_range: { IsInRange unsynced blocks },
    ghost contents: { HoldsBlocks (slot_of synced unsynced) },
}

// Written out: a derived drop is proved wherever a device is dropped, this one only here.
impl Drop for MemDisk {
    fn drop(self) {
        let MemDisk {
            alloc: _,
            blocks: _,
            synced,
            unsynced,
            failed: _,
            attempted: _,
        } = self;
        drop(synced);
        drop(unsynced);
    }
}

impl MemDisk {
    /// A device of so many blocks of zeros, all of it synced. It takes no memory.
    pub fn new(alloc: Global, blocks: u64) -> MemDisk
        ensures count { ⟦<MemDisk as BlockDisk>⟧.block_count result ≡ blocks }
        ensures zeros { (k : ℕ) → ⟦<MemDisk as BlockDisk>⟧.slot result k ≡ only zeros }
        ensures failures { ⟦<MemDisk as BlockDisk>⟧.failures result ≡ 0 }
        ensures attempts { ⟦<MemDisk as BlockDisk>⟧.attempts result ≡ 0 }
    {
        MemDisk {
            alloc,
            blocks,
            synced: Synced::zeros(alloc),
            unsynced: BTreeMap::new(alloc),
            failed: Count::Zero,
            attempted: Count::Zero,
        }
    }
}

impl BlockDisk for MemDisk {
    ghost use Rattle.als_disk.specs.MemDisk.{mem_blocks, mem_slot, mem_newest, mem_failures};
    ghost use Rattle.als_disk.specs.MemDisk.{mem_attempts};

    ghost block_count = { mem_blocks };

    ghost slot = { mem_slot };

    ghost failures = { mem_failures };

    ghost attempts = { mem_attempts };

    ghost gives_candidates = { λ disk. slot_of-gives_candidates disk.synced disk.unsynced };

    ghost holds_blocks = { λ disk. disk.contents };

    fn blocks(&self) -> u64 {
        self.blocks
    }

    /// Reads a block. It never fails, and changes nothing.
    fn read(&mut self, i: u64, into: &mut [u8; 512]) -> Result<(), DeviceError>
        requires { i < mem_blocks self.old }
        ensures ok { IsOk result }
        ensures newest { into.new ≡ mem_newest self.old i }
        ensures same { self.new ≡ self.old }
    {
        *into = store::newest(&self.synced, &self.unsynced, i);
        Ok(())
    }

    /// Writes a block. A write that fails changes nothing.
    fn write(&mut self, i: u64, block: &[u8; 512]) -> Result<(), DeviceError>
        requires { i < mem_blocks self.old }
        ensures ok { OnOk result (mem_slot self.new i ≡ written (mem_slot self.old i) block.now) }
        ensures err { OnErr result (SameBlocks (mem_slot self.old) (mem_slot self.new)) }
        ensures others { SameBlocksBut i (mem_slot self.old) (mem_slot self.new) }
        ensures count { mem_blocks self.new ≡ mem_blocks self.old }
        ensures failures { CountsFailure result (mem_failures self.old) (mem_failures self.new) }
        ensures attempts { mem_attempts self.new ≡ mem_attempts self.old + 1 }
    {
        self.attempted.step();
        match store::put(self.alloc, &mut self.synced, &mut self.unsynced, i, block) {
            Ok(()) => Ok(()),
            Err(AllocError) => {
                self.failed.step();
                Err(DeviceError)
            }
        }
    }

    /// Makes the newest content of each block the only one. It never fails.
    fn sync(&mut self) -> Result<(), DeviceError>
        ensures ok { IsOk result }
        ensures newest { (k : ℕ) → mem_slot self.new k ≡ only (mem_newest self.old k) }
        ensures count { mem_blocks self.new ≡ mem_blocks self.old }
        ensures failures { mem_failures self.new ≡ mem_failures self.old }
        ensures attempts { mem_attempts self.new ≡ mem_attempts self.old + 1 }
    {
        self.attempted.step();
        store::settle(&mut self.synced, &mut self.unsynced);
        Ok(())
    }
}

impl Restart for MemDisk {
    fn crash(self, picks: &[u8]) -> (MemDisk, usize) {
        let MemDisk {
            alloc,
            blocks,
            mut synced,
            mut unsynced,
            failed,
            attempted,
        } = self;
        let used = store::settle_by(&mut synced, &mut unsynced, picks);
        let disk = MemDisk {
            alloc,
            blocks,
            synced,
            unsynced,
            failed,
            attempted,
        };
        (disk, used)
    }
}
