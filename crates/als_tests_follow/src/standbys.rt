use crate::logs::PAGES;
use als_disk::{BlockDisk, FailingDisk, Fuse, MemDisk};
use als_engine::{CONTROL_BLOCKS, Config, Disks, Engine, Reader};
use std::alloc::Global;
use std::sync::Wait;

const CONFIG: Config = Config {
    pages: PAGES as u64,
    frames: PAGES as u64,
    pending: 100_000,
    readers: 1,
};

/// The blocks of a log device: room for the log and for what a takeover would append.
const LOG_BLOCKS: u64 = 1024;

/// Devices in memory, with nothing in them.
pub fn in_memory(alloc: Global) -> Disks<MemDisk> {
    Disks {
        log: MemDisk::new(alloc, LOG_BLOCKS),
        control: MemDisk::new(alloc, CONTROL_BLOCKS),
        pages: MemDisk::new(alloc, u64::from(PAGES)),
    }
}

/// A standby over new devices, and its reader. `None`: allocation failed.
pub fn standby<R: Wait, D: BlockDisk + Drop>(
    rt: &R,
    alloc: Global,
    disks: Disks<D>,
) -> Option<(Engine<D>, Reader)> {
    let (engine, mut readers) = Engine::format(alloc, rt, disks, CONFIG).ok()?;
    Some((engine, readers.pop()?))
}

/// The fuses of three devices.
#[derive(Drop)]
pub struct Fuses {
    pub log: Fuse,
    pub control: Fuse,
    pub pages: Fuse,
}

/// Devices in memory that can fail. `None`: allocation failed.
pub fn failing(alloc: Global) -> Option<(Disks<FailingDisk<MemDisk>>, Fuses)> {
    let Disks {
        log,
        control,
        pages,
    } = in_memory(alloc);
    let fuses = Fuses {
        log: Fuse::new(alloc).ok()?,
        control: Fuse::new(alloc).ok()?,
        pages: Fuse::new(alloc).ok()?,
    };
    let disks = Disks {
        log: FailingDisk::new(log, fuses.log.clone().ok()?),
        control: FailingDisk::new(control, fuses.control.clone().ok()?),
        pages: FailingDisk::new(pages, fuses.pages.clone().ok()?),
    };
    Some((disks, fuses))
}
