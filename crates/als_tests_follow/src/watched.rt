use als_disk::{BlockDisk, DeviceError};
use std::sync::Wait;
use std::sync::atomic::{AtomicU64, Ordering};
use std::time::Duration;

/// What a device was called for.
#[derive(Drop)]
pub struct Watch {
    reads: AtomicU64,
    // Writes of its first 160 blocks behind the very first: of a control device, those of one of two
    // checkpoint regions.
    near: AtomicU64,
    // Writes of the blocks behind these.
    far: AtomicU64,
    // What a nap sleeps on: nobody wakes it.
    still: AtomicU64,
}

impl Watch {
    pub fn new() -> Watch {
        Watch {
            reads: AtomicU64::new(0),
            near: AtomicU64::new(0),
            far: AtomicU64::new(0),
            still: AtomicU64::new(0),
        }
    }

    /// Forgets all calls.
    pub fn forget(&self) {
        self.reads.store(0, Ordering::SeqCst);
        self.near.store(0, Ordering::SeqCst);
        self.far.store(0, Ordering::SeqCst);
    }

    pub fn has_read(&self) -> bool {
        self.reads.load(Ordering::SeqCst) > 0
    }

    pub fn has_written_near(&self) -> bool {
        self.near.load(Ordering::SeqCst) > 0
    }

    pub fn has_written_far(&self) -> bool {
        self.far.load(Ordering::SeqCst) > 0
    }

    /// Sleeps for a millisecond.
    pub fn nap<R: Wait>(&self, rt: &R) {
        self.still.park_timeout(rt, 0, Duration::from_millis(1));
    }

    fn note_write(&self, i: u64) {
        if i > 160 {
            self.far.store(1, Ordering::SeqCst);
        } else if i > 0 {
            self.near.store(1, Ordering::SeqCst);
        }
    }
}

/// A device that is watched.
pub struct Watched<'a, D> {
    inner: D,
    watch: &'a Watch,
}

// Written out: a derived drop is proved wherever a device is dropped, this one only here.
impl<D: Drop> Drop for Watched<'_, D> {
    fn drop(self) {
        let Watched { inner, watch: _ } = self;
        drop(inner);
    }
}

impl<'a, D: BlockDisk> Watched<'a, D> {
    pub fn new(inner: D, watch: &'a Watch) -> Watched<'a, D> {
        Watched { inner, watch }
    }
}

impl<D: BlockDisk> BlockDisk for Watched<'_, D> {
    ghost block_count = { λ disk. D.block_count disk.inner };

    ghost slot = { λ disk. D.slot disk.inner };

    ghost failures = { λ disk. D.failures disk.inner };

    ghost attempts = { λ disk. D.attempts disk.inner };

    ghost gives_candidates = { λ disk. D.gives_candidates disk.inner };

    ghost holds_blocks = { λ disk. D.holds_blocks disk.inner };

    fn blocks(&self) -> u64 {
        self.inner.blocks()
    }

    fn read(&mut self, i: u64, into: &mut [u8; 512]) -> Result<(), DeviceError> {
        self.watch.reads.store(1, Ordering::SeqCst);
        self.inner.read(i, into)
    }

    fn write(&mut self, i: u64, block: &[u8; 512]) -> Result<(), DeviceError> {
        self.watch.note_write(i);
        self.inner.write(i, block)
    }

    fn sync(&mut self) -> Result<(), DeviceError> {
        self.inner.sync()
    }
}
