use crate::logs::PAGES;
use crate::trouble::Trouble;
use als_disk::{FailingDisk, Fuse, MemDisk};
use als_engine::{CONTROL_BLOCKS, Config, Disks};
use std::alloc::Global;

pub const CONFIG: Config = Config {
    pages: PAGES as u64,
    frames: PAGES as u64,
    pending: 100_000,
    readers: 1,
};

/// The blocks of a log device: room for the log and for what a takeover would append.
const LOG_BLOCKS: u64 = 1024;

/// A device in memory that can fail.
pub type Disk = FailingDisk<MemDisk>;

/// The fuses of three devices.
#[derive(Drop)]
pub struct Fuses {
    pub log: Fuse,
    pub control: Fuse,
    pub pages: Fuse,
}

/// One of a standby's devices.
#[derive(Clone, Copy)]
pub enum Part {
    Log,
    Control,
    Pages,
}

/// The devices, in the order in which a crash takes its picks.
pub const PARTS: [Part; 3] = [Part::Log, Part::Control, Part::Pages];

impl Part {
    /// Its name, as scripts have it.
    pub fn name(self) -> &'static str {
        match self {
            Part::Log => "log",
            Part::Control => "control",
            Part::Pages => "pages",
        }
    }

    /// Makes that call of this device fail, counted from 1 for the next one.
    pub fn fail_at(self, fuses: &Fuses, call: u64) {
        let fuse = match self {
            Part::Log => &fuses.log,
            Part::Control => &fuses.control,
            Part::Pages => &fuses.pages,
        };
        fuse.fail_at(call.max(1));
    }
}

/// A call that no device comes to.
pub const NEVER: u64 = u64::MAX;

/// No call of a device fails from here on.
pub fn mend(fuses: &Fuses) {
    for part in PARTS {
        part.fail_at(fuses, NEVER);
    }
}

/// New devices in memory that can fail.
pub fn failing(alloc: Global) -> Result<(Disks<Disk>, Fuses), Trouble> {
    let fuses = Fuses {
        log: Fuse::new(alloc)?,
        control: Fuse::new(alloc)?,
        pages: Fuse::new(alloc)?,
    };
    let disks = Disks {
        log: FailingDisk::new(MemDisk::new(alloc, LOG_BLOCKS), fuses.log.clone()?),
        control: FailingDisk::new(MemDisk::new(alloc, CONTROL_BLOCKS), fuses.control.clone()?),
        pages: FailingDisk::new(MemDisk::new(alloc, u64::from(PAGES)), fuses.pages.clone()?),
    };
    Ok((disks, fuses))
}
