use crate::disk::Disk;
use als_disk::{FailingDisk, Fuse, MemDisk};
use als_engine::{CONTROL_BLOCKS, Disks};
use als_script::{Device, FailLine, WorldLine};
use std::alloc::{AllocError, Global};

/// What makes the standby's devices fail.
pub struct Fuses {
    log: Fuse,
    control: Fuse,
    pages: Fuse,
}

// Written out: a derived drop is proved part by part wherever a value is dropped, this one only
// here.
impl Drop for Fuses {
    fn drop(self) {
        let Fuses {
            log,
            control,
            pages,
        } = self;
        drop(log);
        drop(control);
        drop(pages);
    }
}

impl Fuses {
    /// Fuses that do not burn until they are set.
    pub fn new(alloc: Global) -> Result<Fuses, AllocError> {
        Ok(Fuses {
            log: Fuse::new(alloc)?,
            control: Fuse::new(alloc)?,
            pages: Fuse::new(alloc)?,
        })
    }

    /// Sets the fuse of the device that a line names.
    pub fn set(&self, line: FailLine) {
        let fuse = match line.device {
            Device::Log => &self.log,
            Device::Control => &self.control,
            Device::Pages => &self.pages,
        };
        fuse.fail_at(line.call);
    }

    /// New devices in memory, as large as a world line says, that fail where these fuses burn.
    pub fn devices(&self, alloc: Global, line: &WorldLine) -> Result<Disks<Disk>, AllocError> {
        let log = MemDisk::new(alloc, line.log);
        let control = MemDisk::new(alloc, CONTROL_BLOCKS);
        let pages = MemDisk::new(alloc, line.pages);
        Ok(Disks {
            log: FailingDisk::new(log, self.log.clone()?),
            control: FailingDisk::new(control, self.control.clone()?),
            pages: FailingDisk::new(pages, self.pages.clone()?),
        })
    }
}
