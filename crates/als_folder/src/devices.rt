ghost use Rattle.std.specs.Prelude.{◌≡◌, ◌<◌, ◌*◌, ◌^◌, IfOk, IfErr};
ghost use Rattle.als_disk.specs.Slot.{SameBlocks};
ghost use Rattle.als_folder.specs.FaultNames.{IsOf, IsOfNewDevice};

use crate::fault::Fault;
use crate::lengths::Sizes;
use crate::limit::FOLLOWED_PIECES;
use crate::part::Part;
use als_disk::{BlockDisk, FileDisk};
use std::fs::{File, OpenFile};
use std::io;
use std::os::unix::fs::FileExt;

/// The devices of a standby, over files.
pub struct Devices<F = File> {
    /// The log's.
    pub log: FileDisk<F>,
    /// The control block's and the checkpoints'.
    pub control: FileDisk<F>,
    /// The pages'.
    pub pages: FileDisk<F>,
}

impl Devices<File> {
    /// Locks the files of a database that was just laid out, for as long as their devices are there.
    /// Those that `Folder::hold` found are locked already.
    ///
    /// Device: another program has one of them.
    pub fn lock_new(&self) -> Result<(), Fault>
        ensures { IfErr result IsOfNewDevice }
    {
        lock(&self.log, Part::NewLog)?;
        lock(&self.control, Part::NewControl)?;
        lock(&self.pages, Part::NewPages)?;
        Ok(())
    }
}

/// Locks the file of one device.
fn lock(disk: &FileDisk, part: Part) -> Result<(), Fault>
    ensures { IfErr result (IsOf part) }
{
    match disk.try_lock() {
        Ok(()) => Ok(()),
        Err(e) => Err(Fault::of_file_lock(part, e)),
    }
}

impl<F: OpenFile + FileExt + Drop> Devices<F> {
    /// How many blocks they have.
    pub fn sizes(&self) -> Sizes
        ensures log { result.log ≡ ⟦<FileDisk<F> as BlockDisk>⟧.block_count self.now.log }
        ensures control { result.control ≡ ⟦<FileDisk<F> as BlockDisk>⟧.block_count self.now.control }
        ensures pages { result.pages ≡ ⟦<FileDisk<F> as BlockDisk>⟧.block_count self.now.pages }
    {
        Sizes {
            log: self.log.blocks(),
            control: self.control.blocks(),
            pages: self.pages.blocks(),
        }
    }

    /// Lets the log's device forget old blocks, for a program that follows: it does not read them
    /// again. Of the log, `FOLLOWED_PIECES` pieces behind its end stay in memory once it is synced.
    pub fn forget_old_log(&mut self)
        ensures log { SameBlocks (⟦<FileDisk<F> as BlockDisk>⟧.slot self.old.log)
            (⟦<FileDisk<F> as BlockDisk>⟧.slot self.new.log) }
        ensures log_size { ⟦<FileDisk<F> as BlockDisk>⟧.block_count self.new.log
            ≡ ⟦<FileDisk<F> as BlockDisk>⟧.block_count self.old.log }
        ensures control { self.new.control ≡ self.old.control }
        ensures pages { self.new.pages ≡ self.old.pages }
    {
        self.log.forget_old(FOLLOWED_PIECES);
    }

    /// The log's device, the control block's and the pages'.
    pub fn into_parts(self) -> (FileDisk<F>, FileDisk<F>, FileDisk<F>)
        ensures log { result.0 ≡ self.log }
        ensures control { result.1 ≡ self.control }
        ensures pages { result.2 ≡ self.pages }
    {
        let Devices {
            log,
            control,
            pages,
        } = self;
        (log, control, pages)
    }
}

impl<F: Drop> Drop for Devices<F> {
    fn drop(self) {
        let Devices {
            log,
            control,
            pages,
        } = self;
        drop(log);
        drop(control);
        drop(pages);
    }
}

/// The files of a standby, open to be read alone.
pub struct DeviceFiles<F = File> {
    /// The log's.
    pub log: F,
    /// The control block's and the checkpoints'.
    pub control: F,
    /// The pages'.
    pub pages: F,
}

impl<F: OpenFile> DeviceFiles<F> {
    /// How many whole blocks they have.
    pub fn sizes(&self) -> io::Result<Sizes>
        ensures { IfOk result (λ s. (s.log * 512 < 2 ^ 64) × (s.control * 512 < 2 ^ 64)
            × (s.pages * 512 < 2 ^ 64)) }
    {
        Ok(Sizes {
            log: self.log.metadata()?.len() / 512,
            control: self.control.metadata()?.len() / 512,
            pages: self.pages.metadata()?.len() / 512,
        })
    }
}

// Written out: a derived drop is proved wherever the files are dropped, this one only here.
impl<F: Drop> Drop for DeviceFiles<F> {
    fn drop(self) {
        let DeviceFiles {
            log,
            control,
            pages,
        } = self;
        drop(log);
        drop(control);
        drop(pages);
    }
}
