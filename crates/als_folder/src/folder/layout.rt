// How a new database comes into a folder.
ghost use Rattle.std.specs.Prelude.{◌≡◌, ℕ, IfOk, IfErr};
ghost use Rattle.als_disk.specs.Slot.{only};
ghost use Rattle.als_disk.specs.Store.{zeros};
ghost use Rattle.als_folder.specs.FaultNames.{IsOf, IsOfOpening, IsOfNewDevice, IsOfLayout};

use super::Folder;
use crate::devices::Devices;
use crate::fault::Fault;
use crate::lengths::Sizes;
use crate::part::Part;
use crate::trouble::{Trouble, Wrong};
use crate::vacancy::Vacancy;
use als_disk::{BlockDisk, FileDisk, FirstError};
use std::fs::{self, OpenFile};
use std::io;
use std::os::unix::fs::FileExt;
use std::rt::Files;

mod rebuilding;

impl<F: OpenFile + FileExt + Drop> Vacancy<'_, F> {
    /// Makes devices of zeros for a new database, which there is not before `keep`. What an earlier
    /// layout left that did not come to its end is taken away.
    ///
    /// Device: there is a database meanwhile, or there may be, as `find` says; a file failed, or it
    /// would be too long. Memory: there was none for a name or a piece of zeros.
    pub fn lay_out<R: Files<File = F> + AllocGlobal>(
        self,
        rt: &R,
        sizes: Sizes,
    ) -> Result<Devices<F>, Fault>
        ensures log_size { IfOk result (λ d.
            ⟦<FileDisk<F> as BlockDisk>⟧.block_count d.log ≡ sizes.log) }
        ensures control_size { IfOk result (λ d.
            ⟦<FileDisk<F> as BlockDisk>⟧.block_count d.control ≡ sizes.control) }
        ensures pages_size { IfOk result (λ d.
            ⟦<FileDisk<F> as BlockDisk>⟧.block_count d.pages ≡ sizes.pages) }
        ensures log { IfOk result (λ d. (k : ℕ)
            → ⟦<FileDisk<F> as BlockDisk>⟧.slot d.log k ≡ only zeros) }
        ensures control { IfOk result (λ d. (k : ℕ)
            → ⟦<FileDisk<F> as BlockDisk>⟧.slot d.control k ≡ only zeros) }
        ensures pages { IfOk result (λ d. (k : ℕ)
            → ⟦<FileDisk<F> as BlockDisk>⟧.slot d.pages k ≡ only zeros) }
        ensures fails { IfErr result IsOfLayout }
    {
        let Vacancy {
            folder,
            log: _,
            pages: _,
        } = self;
        folder.lay_out(rt, sizes)
    }
}

impl<F: OpenFile + FileExt + Drop> Folder<F> {
    /// Makes devices of zeros for a new database in a folder that has none.
    fn lay_out<R: Files<File = F> + AllocGlobal>(
        &self,
        rt: &R,
        sizes: Sizes,
    ) -> Result<Devices<F>, Fault>
        ensures log_size { IfOk result (λ d.
            ⟦<FileDisk<F> as BlockDisk>⟧.block_count d.log ≡ sizes.log) }
        ensures control_size { IfOk result (λ d.
            ⟦<FileDisk<F> as BlockDisk>⟧.block_count d.control ≡ sizes.control) }
        ensures pages_size { IfOk result (λ d.
            ⟦<FileDisk<F> as BlockDisk>⟧.block_count d.pages ≡ sizes.pages) }
        ensures log { IfOk result (λ d. (k : ℕ)
            → ⟦<FileDisk<F> as BlockDisk>⟧.slot d.log k ≡ only zeros) }
        ensures control { IfOk result (λ d. (k : ℕ)
            → ⟦<FileDisk<F> as BlockDisk>⟧.slot d.control k ≡ only zeros) }
        ensures pages { IfOk result (λ d. (k : ℕ)
            → ⟦<FileDisk<F> as BlockDisk>⟧.slot d.pages k ≡ only zeros) }
        ensures fails { IfErr result IsOfLayout }
    {
        self.check_not_kept(rt)?;
        self.remove_left(rt)?;
        let devices = self.create_devices(rt, sizes)?;
        Ok(devices)
    }

    /// Makes what was laid out, and then formatted and synced, the database of this folder, and
    /// makes that last.
    ///
    /// Device: there is a database, or there may be; the folder failed, and there may or may not be
    /// the new one. Memory: there was none for a name.
    pub fn keep<R: Files<File = F> + AllocGlobal>(&self, rt: &R) -> Result<(), Fault>
        ensures fails { IfErr result IsOfLayout }
    {
        self.check_not_kept(rt)?;
        self.rename(rt, Part::NewLog, Part::Log)?;
        self.rename(rt, Part::NewPages, Part::Pages)?;
        // No crash may leave a control block without them.
        self.sync()?;
        self.rename(rt, Part::NewControl, Part::Control)?;
        self.sync()?;
        Ok(())
    }

    /// Refuses a folder that has a database, or may have.
    fn check_not_kept<R: Files<File = F> + AllocGlobal>(&self, rt: &R) -> Result<(), Fault>
        ensures fails { IfErr result IsOfOpening }
    {
        if self.is_kept(rt)? {
            return Err(Fault::Device(Trouble {
                part: Part::Itself,
                wrong: Wrong::Kept,
            }));
        }
        Ok(())
    }

    /// Takes away what an earlier layout left that did not come to its end.
    fn remove_left<R: Files<File = F> + AllocGlobal>(&self, rt: &R) -> Result<(), Fault>
        ensures fails { IfErr result IsOfNewDevice }
    {
        self.remove(rt, Part::NewLog)?;
        self.remove(rt, Part::NewControl)?;
        self.remove(rt, Part::NewPages)?;
        Ok(())
    }

    /// Makes the devices of a new database.
    fn create_devices<R: Files<File = F> + AllocGlobal>(
        &self,
        rt: &R,
        sizes: Sizes,
    ) -> Result<Devices<F>, Fault>
        ensures log_size { IfOk result (λ d.
            ⟦<FileDisk<F> as BlockDisk>⟧.block_count d.log ≡ sizes.log) }
        ensures control_size { IfOk result (λ d.
            ⟦<FileDisk<F> as BlockDisk>⟧.block_count d.control ≡ sizes.control) }
        ensures pages_size { IfOk result (λ d.
            ⟦<FileDisk<F> as BlockDisk>⟧.block_count d.pages ≡ sizes.pages) }
        ensures log { IfOk result (λ d. (k : ℕ)
            → ⟦<FileDisk<F> as BlockDisk>⟧.slot d.log k ≡ only zeros) }
        ensures control { IfOk result (λ d. (k : ℕ)
            → ⟦<FileDisk<F> as BlockDisk>⟧.slot d.control k ≡ only zeros) }
        ensures pages { IfOk result (λ d. (k : ℕ)
            → ⟦<FileDisk<F> as BlockDisk>⟧.slot d.pages k ≡ only zeros) }
        ensures fails { IfErr result IsOfNewDevice }
    {
        let log = self.create_device(rt, Part::NewLog, sizes.log, &self.errors.log)?;
        let control = self.create_device(
            rt,
            Part::NewControl,
            sizes.control,
            &self.errors.control,
        )?;
        let pages = self.create_device(rt, Part::NewPages, sizes.pages, &self.errors.pages)?;
        Ok(Devices {
            log,
            control,
            pages,
        })
    }

    /// Takes away what an earlier layout left, if there is something: the name alone, where it is a
    /// link.
    pub(super) fn remove<R: Files<File = F> + AllocGlobal>(
        &self,
        rt: &R,
        part: Part,
    ) -> Result<(), Fault>
        ensures fails { IfErr result (IsOf part) }
    {
        let path = self.path_of(rt, part)?;
        match fs::remove_file(rt, path.as_path()) {
            Ok(()) => Ok(()),
            Err(e) if e.kind() == io::ErrorKind::NotFound => Ok(()),
            Err(e) => Err(Fault::of(part, e)),
        }
    }

    /// Gives a file its name.
    pub(super) fn rename<R: Files<File = F> + AllocGlobal>(
        &self,
        rt: &R,
        new: Part,
        kept: Part,
    ) -> Result<(), Fault>
        ensures fails { IfErr result (IsOf new) }
    {
        let from = self.path_of(rt, new)?;
        let to = self.path_of(rt, kept)?;
        match fs::rename(rt, from.as_path(), to.as_path()) {
            Ok(()) => Ok(()),
            Err(e) => Err(Fault::of(new, e)),
        }
    }

    /// Makes one device of zeros.
    fn create_device<R: Files<File = F> + AllocGlobal>(
        &self,
        rt: &R,
        part: Part,
        blocks: u64,
        first_error: &FirstError,
    ) -> Result<FileDisk<F>, Fault>
        ensures count { IfOk result (λ disk.
            ⟦<FileDisk<F> as BlockDisk>⟧.block_count disk ≡ blocks) }
        ensures zeros { IfOk result (λ disk. (k : ℕ)
            → ⟦<FileDisk<F> as BlockDisk>⟧.slot disk k ≡ only zeros) }
        ensures fails { IfErr result (IsOf part) }
    {
        let path = self.path_of(rt, part)?;
        match FileDisk::create(rt, path.as_path(), blocks, first_error.clone()?) {
            Ok(disk) => Ok(disk),
            Err(e) => Err(Fault::of(part, e)),
        }
    }
}
