use als_disk::{BlockDisk, DeviceError};

/// A device whose syncs are counted.
pub struct Counted<D> {
    disk: D,
    syncs: u64,
}

// Written out: a derived drop is proved wherever a device is dropped, this one only here.
impl<D: Drop> Drop for Counted<D> {
    fn drop(self) {
        let Counted { disk, syncs: _ } = self;
        drop(disk);
    }
}

impl<D: BlockDisk> Counted<D> {
    /// This device, not synced yet.
    pub fn new(disk: D) -> Counted<D> {
        Counted { disk, syncs: 0 }
    }

    /// How often it was synced.
    pub fn syncs(&self) -> u64 {
        self.syncs
    }
}

// Each call is one of the device's own.
impl<D: BlockDisk> BlockDisk for Counted<D> {
    ghost block_count = { λ counted. D.block_count counted.disk };

    ghost slot = { λ counted. D.slot counted.disk };

    ghost failures = { λ counted. D.failures counted.disk };

    ghost attempts = { λ counted. D.attempts counted.disk };

    ghost gives_candidates = { λ counted. D.gives_candidates counted.disk };

    ghost holds_blocks = { λ counted. D.holds_blocks counted.disk };

    fn blocks(&self) -> u64 {
        self.disk.blocks()
    }

    fn read(&mut self, i: u64, into: &mut [u8; 512]) -> Result<(), DeviceError> {
        self.disk.read(i, into)
    }

    fn write(&mut self, i: u64, block: &[u8; 512]) -> Result<(), DeviceError> {
        self.disk.write(i, block)
    }

    fn sync(&mut self) -> Result<(), DeviceError> {
        self.syncs = self.syncs.saturating_add(1);
        self.disk.sync()
    }
}
