use crate::trouble::Trouble;
use als_disk::{FailingDisk, Fuse, MemDisk};
use als_engine::{CONTROL_BLOCKS, Config, Disks};
use std::alloc::Global;

/// Pages of the database.
pub const PAGES: u32 = 16;

pub const CONFIG: Config = Config {
    pages: PAGES as u64,
    frames: PAGES as u64,
    pending: 100_000,
    readers: 1,
};

/// The blocks of a log device.
pub const LOG_BLOCKS: u64 = 64;

/// A call that no device comes to.
pub const NEVER: u64 = u64::MAX;

/// A device in memory that can fail.
pub type Disk = FailingDisk<MemDisk>;

/// The fuses of three devices.
#[derive(Drop)]
pub struct Fuses {
    pub log: Fuse,
    pub control: Fuse,
    pub pages: Fuse,
}

impl Fuses {
    /// Fuses that do not burn until they are set.
    pub fn new(alloc: Global) -> Result<Fuses, Trouble> {
        Ok(Fuses {
            log: Fuse::new(alloc)?,
            control: Fuse::new(alloc)?,
            pages: Fuse::new(alloc)?,
        })
    }

    /// No call of a device fails from here on.
    pub fn mend(&self) {
        for part in PARTS {
            self.fail_at(part, NEVER);
        }
    }

    /// Makes that call of a device fail, counted from 1 for the next one.
    pub fn fail_at(&self, part: Part, call: u64) {
        let fuse = match part {
            Part::Log => &self.log,
            Part::Control => &self.control,
            Part::Pages => &self.pages,
        };
        fuse.fail_at(call.max(1));
    }
}

/// One of a writer's devices.
#[derive(Clone, Copy)]
pub enum Part {
    Log,
    Control,
    Pages,
}

/// The devices, in the order in which a crash takes its picks.
pub const PARTS: [Part; 3] = [Part::Log, Part::Control, Part::Pages];

/// New devices in memory that fail by these fuses.
pub fn new_disks(alloc: Global, fuses: &Fuses) -> Result<Disks<Disk>, Trouble> {
    Ok(Disks {
        log: FailingDisk::new(MemDisk::new(alloc, LOG_BLOCKS), fuses.log.clone()?),
        control: FailingDisk::new(MemDisk::new(alloc, CONTROL_BLOCKS), fuses.control.clone()?),
        pages: FailingDisk::new(MemDisk::new(alloc, u64::from(PAGES)), fuses.pages.clone()?),
    })
}
