use crate::failing::{Disk, Fuses, LOG_BLOCKS, PAGES, new_disks};
use crate::trouble::Trouble;
use als_disk::{FailingDisk, FileDisk, FirstError, Restart};
use als_engine::{CONTROL_BLOCKS, Disks};
use std::alloc::Global;
use std::fs::{self, File};
use std::io;
use std::rt::Files;

/// Where the devices of a writer are.
pub trait Medium<D> {
    /// New devices.
    fn begin(&mut self) -> Result<Disks<D>, Trouble>;

    /// Devices of an engine that was dropped, as a crash leaves them.
    fn crash(&mut self, disks: Disks<D>, picks: &[u8]) -> Result<Disks<D>, Trouble>;

    /// What makes them fail.
    fn fuses(&self) -> &Fuses;
}

/// Devices in memory. A crash leaves of them what its picks name.
#[derive(Drop)]
pub struct InMemory {
    alloc: Global,
    fuses: Fuses,
}

impl InMemory {
    pub fn new(alloc: Global) -> Result<InMemory, Trouble> {
        let fuses = Fuses::new(alloc)?;
        Ok(InMemory { alloc, fuses })
    }
}

impl Medium<Disk> for InMemory {
    fn begin(&mut self) -> Result<Disks<Disk>, Trouble> {
        new_disks(self.alloc, &self.fuses)
    }

    fn crash(&mut self, disks: Disks<Disk>, picks: &[u8]) -> Result<Disks<Disk>, Trouble> {
        let Disks {
            log,
            control,
            pages,
        } = disks;
        let (log, used) = log.crash(picks);
        let rest = picks.get(used..).unwrap_or(&[]);
        let (control, used) = control.crash(rest);
        let rest = rest.get(used..).unwrap_or(&[]);
        let (pages, _) = pages.crash(rest);
        Ok(Disks {
            log,
            control,
            pages,
        })
    }

    fn fuses(&self) -> &Fuses {
        &self.fuses
    }
}

/// A device file that can fail.
pub type FailingFile = FailingDisk<FileDisk>;

/// Device files in a folder. A crash leaves what the files have.
#[derive(Drop)]
pub struct InFolder<'a, R> {
    rt: &'a R,
    folder: &'a str,
    fuses: Fuses,
}

impl<'a, R: AllocGlobal + Files<File = File>> InFolder<'a, R> {
    pub fn new(rt: &'a R, folder: &'a str) -> Result<InFolder<'a, R>, Trouble> {
        let fuses = Fuses::new(rt.alloc())?;
        Ok(InFolder { rt, folder, fuses })
    }
}

impl<R: AllocGlobal + Files<File = File>> Medium<FailingFile> for InFolder<'_, R> {
    fn begin(&mut self) -> Result<Disks<FailingFile>, Trouble> {
        let Fuses {
            log,
            control,
            pages,
        } = &self.fuses;
        Ok(Disks {
            log: FailingDisk::new(
                create(self.rt, self.folder, "log", LOG_BLOCKS)?,
                log.clone()?,
            ),
            control: FailingDisk::new(
                create(self.rt, self.folder, "control", CONTROL_BLOCKS)?,
                control.clone()?,
            ),
            pages: FailingDisk::new(
                create(self.rt, self.folder, "pages", u64::from(PAGES))?,
                pages.clone()?,
            ),
        })
    }

    fn crash(
        &mut self,
        disks: Disks<FailingFile>,
        _picks: &[u8],
    ) -> Result<Disks<FailingFile>, Trouble> {
        drop(disks);
        let Fuses {
            log,
            control,
            pages,
        } = &self.fuses;
        Ok(Disks {
            log: FailingDisk::new(open(self.rt, self.folder, "log")?, log.clone()?),
            control: FailingDisk::new(open(self.rt, self.folder, "control")?, control.clone()?),
            pages: FailingDisk::new(open(self.rt, self.folder, "pages")?, pages.clone()?),
        })
    }

    fn fuses(&self) -> &Fuses {
        &self.fuses
    }
}

/// A device file of a folder, made anew.
fn create<R: AllocGlobal + Files<File = File>>(
    rt: &R,
    folder: &str,
    name: &str,
    blocks: u64,
) -> io::Result<FileDisk> {
    let path = format!(in rt.alloc(); "{folder}/storm-{name}.blk")?;
    match fs::remove_file(rt, path.as_str()) {
        Ok(()) => {}
        Err(e) if e.kind() == io::ErrorKind::NotFound => {}
        Err(e) => return Err(e),
    }
    FileDisk::create(rt, path.as_str(), blocks, FirstError::new(rt.alloc())?)
}

/// A device file of a folder, as it is.
fn open<R: AllocGlobal + Files<File = File>>(
    rt: &R,
    folder: &str,
    name: &str,
) -> io::Result<FileDisk> {
    let path = format!(in rt.alloc(); "{folder}/storm-{name}.blk")?;
    FileDisk::open(rt, path.as_str(), FirstError::new(rt.alloc())?)
}
