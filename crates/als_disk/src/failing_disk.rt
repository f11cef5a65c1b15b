ghost use Rattle.std.specs.Prelude.{◌≡◌, ◌+◌, ℕ};
ghost use Rattle.als_disk.specs.Count.{number};

use crate::count::Count;
use crate::{BlockDisk, DeviceError, Fuse, Restart};

/// A device that fails where its fuse burns.
///
/// Where it does, a write still reaches the device below and is answered as failed, and a read or a
/// sync does not reach it. It counts the writes and syncs that it is called for itself.
pub struct FailingDisk<D> {
    inner: D,
    fuse: Fuse,
    failed: Count,
    attempted: Count,
}

// Written out: a derived drop is proved wherever a device is dropped, this one only here.
impl<D: Drop> Drop for FailingDisk<D> {
    fn drop(self) {
        let FailingDisk {
            inner,
            fuse,
            failed: _,
            attempted: _,
        } = self;
        drop(inner);
        drop(fuse);
    }
}

impl<D: BlockDisk> FailingDisk<D> {
    pub fn new(inner: D, fuse: Fuse) -> FailingDisk<D>
        ensures count { ⟦<FailingDisk<D> as BlockDisk>⟧.block_count result ≡ D.block_count inner }
        ensures slots { (k : ℕ) → ⟦<FailingDisk<D> as BlockDisk>⟧.slot result k ≡ D.slot inner k }
        ensures failures { ⟦<FailingDisk<D> as BlockDisk>⟧.failures result ≡ D.failures inner }
        ensures attempts { ⟦<FailingDisk<D> as BlockDisk>⟧.attempts result ≡ 0 }
    {
        FailingDisk {
            inner,
            fuse,
            failed: Count::Zero,
            attempted: Count::Zero,
        }
    }
}

impl<D: BlockDisk> BlockDisk for FailingDisk<D> {
    ghost block_count = { λ disk. D.block_count disk.inner };

    ghost slot = { λ disk. D.slot disk.inner };

    ghost failures = { λ disk. D.failures disk.inner + number disk.failed };

    ghost attempts = { λ disk. number disk.attempted };

    ghost gives_candidates = { λ disk. D.gives_candidates disk.inner };

    ghost holds_blocks = { λ disk. D.holds_blocks disk.inner };

    fn blocks(&self) -> u64 {
        self.inner.blocks()
    }

    fn read(&mut self, i: u64, into: &mut [u8; 512]) -> Result<(), DeviceError> {
        if self.fuse.burn() {
            self.failed.step();
            return Err(DeviceError);
        }
        self.inner.read(i, into)
    }

    fn write(&mut self, i: u64, block: &[u8; 512]) -> Result<(), DeviceError> {
        self.attempted.step();
        let burns = self.fuse.burn();
        let answer = self.inner.write(i, block);
        if burns {
            self.failed.step();
            return Err(DeviceError);
        }
        answer
    }

    fn sync(&mut self) -> Result<(), DeviceError> {
        self.attempted.step();
        if self.fuse.burn() {
            self.failed.step();
            return Err(DeviceError);
        }
        self.inner.sync()
    }
}

/// The fuse is that of the device before. A crash is no call.
impl<D: Restart> Restart for FailingDisk<D> {
    fn crash(self, picks: &[u8]) -> (FailingDisk<D>, usize) {
        let FailingDisk {
            inner,
            fuse,
            failed,
            attempted,
        } = self;
        let (inner, used) = inner.crash(picks);
        let disk = FailingDisk {
            inner,
            fuse,
            failed,
            attempted,
        };
        (disk, used)
    }
}
