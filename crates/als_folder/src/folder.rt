//! The folder of a standby, held for this program until the value is dropped.
//!
//!     log.blk  pages.blk  control.blk       a database
//!     log.new  pages.new  control.new       one that is being laid out
//!
//! 1. Where control.blk is, there is a whole database, and no other is laid out. Where it is a link
//!    that leads nowhere, the folder is refused.
//! 2. Where it is missing, but log.blk or pages.blk has more than an empty database, the folder is
//!    refused, and nothing in it is touched: the control block was lost, and not the database.
//! 3. A new database is laid out under other names, in files that are made new. `keep` gives them
//!    their names, control.blk last, and syncs the folder before that and behind it. So a stop on
//!    the way leaves only what the next layout takes away.
//! 4. `open` syncs the folder first: what `keep` renamed may not be on the disk yet.
//! 5. Who takes the folder locks its files too. So no two programs write one file that has a name in
//!    two folders.
ghost use Rattle.std.specs.Prelude.{◌≡◌, ◌≤◌, ◌*◌, ℕ, IfOk, IfErr};
ghost use Rattle.als_disk.specs.Slot.{only, IsSettled};
ghost use Rattle.als_disk.specs.Store.{zeros};
ghost use Rattle.als_folder.specs.declared.part.Part.TheVariants.{Itself, Log};
ghost use Rattle.als_folder.specs.FaultNames.{IsOf, IsOfDevice, IsOfOpening};

use crate::devices::{DeviceFiles, Devices};
use crate::errors::Errors;
use crate::fault::Fault;
use crate::holding::{Holding, check_room};
use crate::locks::{Locks, Sharing};
use crate::name_watch::{Name, NameWatch};
use crate::part::Part;
use crate::trouble::Trouble;
use crate::vacancy::{Found, Vacancy};
use crate::zeros::is_zero_from;
use als_disk::{BlockDisk, FileDisk, FirstError};
use std::alloc::{AllocError, Global};
use std::fs::{self, File, OpenFile};
use std::io;
use std::os::unix::fs::FileExt;
use std::path::{AsPath, PathBuf};
use std::rt::Files;

mod id_file;
mod layout;
mod role_file;

/// The folder of a standby.
pub struct Folder<F = File> {
    path: PathBuf,
    /// The folder itself, open and locked.
    held: F,
    /// The files that were there when it was taken, open and locked.
    locks: Locks<F>,
    /// The first errors of the devices that are open.
    errors: Errors,
}

// Written out: a derived drop is proved wherever a folder is dropped, this one only here.
impl<F: Drop> Drop for Folder<F> {
    fn drop(self) {
        let Folder {
            path,
            held,
            locks,
            errors,
        } = self;
        drop(path);
        drop(held);
        drop(locks);
        drop(errors);
    }
}

impl Folder<File> {
    /// Takes a folder, which is there, for this program alone.
    ///
    /// Busy: another program has it. Device: it can't be opened, or another program has one of its
    /// files. Memory: there was none for a name.
    pub fn hold<R: Files<File = File> + AllocGlobal, P: AsPath>(
        rt: &R,
        path: P,
    ) -> Result<Folder, Fault> {
        let held = open_folder(rt, path.path_text())?;
        held.try_lock()?;
        let mut folder = Folder::over(rt.alloc(), path, held)?;
        folder.lock_files(rt, Sharing::Alone)?;
        Ok(folder)
    }

    /// Takes a folder for programs that read it alone: no other may write it meanwhile.
    ///
    /// As `hold`. Busy: another program may write it.
    pub fn hold_to_read<R: Files<File = File> + AllocGlobal, P: AsPath>(
        rt: &R,
        path: P,
    ) -> Result<Folder, Fault> {
        let held = open_folder(rt, path.path_text())?;
        held.try_lock_shared()?;
        let mut folder = Folder::over(rt.alloc(), path, held)?;
        folder.lock_files(rt, Sharing::ToRead)?;
        Ok(folder)
    }

    /// Locks the files that are there.
    fn lock_files<R: Files<File = File> + AllocGlobal>(
        &mut self,
        rt: &R,
        sharing: Sharing,
    ) -> Result<(), Fault> {
        let log = self.lock_file(rt, Part::Log, sharing)?;
        let control = self.lock_file(rt, Part::Control, sharing)?;
        let pages = self.lock_file(rt, Part::Pages, sharing)?;
        self.locks = Locks {
            log,
            control,
            pages,
        };
        Ok(())
    }

    /// Opens one file and locks it. None: there is no such file, or it can't be opened, which `open`
    /// will report.
    fn lock_file<R: Files<File = File> + AllocGlobal>(
        &self,
        rt: &R,
        part: Part,
        sharing: Sharing,
    ) -> Result<Option<File>, Fault> {
        let path = self.path_of(rt, part)?;
        match fs::metadata(rt, path.as_path()) {
            Ok(found) if found.is_file() => {}
            Ok(_) | Err(_) => return Ok(None),
        }
        let Ok(file) = File::open(rt, path.as_path()) else {
            return Ok(None);
        };
        let locked = match sharing {
            Sharing::Alone => file.try_lock(),
            Sharing::ToRead => file.try_lock_shared(),
        };
        match locked {
            Ok(()) => Ok(Some(file)),
            Err(e) => Err(Fault::of_file_lock(part, e)),
        }
    }
}

/// Opens the folder itself.
fn open_folder<R: Files<File = File>>(rt: &R, path: &str) -> Result<File, Fault>
    ensures { IfErr result (IsOf Itself) }
{
    match File::open(rt, path) {
        Ok(folder) => Ok(folder),
        Err(e) => Err(Fault::of(Part::Itself, e)),
    }
}

impl<F: OpenFile + FileExt + Drop> Folder<F> {
    /// A folder that is open, and held, as this file. Memory: there was none for its name.
    pub fn over<P: AsPath>(alloc: Global, path: P, held: F) -> Result<Folder<F>, Fault>
        ensures fails { IfErr result (IsOf Itself) }
    {
        let path = PathBuf::from_str(alloc, path.path_text())?;
        let errors = Errors::new(alloc)?;
        let locks = Locks::none();
        Ok(Folder {
            path,
            held,
            locks,
            errors,
        })
    }

    /// Whether there is a whole database, or else a place for a new one.
    ///
    /// As `is_kept`.
    pub fn find<R: Files<File = F> + AllocGlobal>(&self, rt: &R) -> Result<Found<'_, F>, Fault>
        ensures fails { IfErr result IsOfOpening }
    {
        if self.has_control(rt)? {
            return Ok(Found::Kept);
        }
        // The log's header is the same in an empty database.
        let log = self.holding(rt, Part::Log, 16)?;
        let pages = self.holding(rt, Part::Pages, 0)?;
        check_room(log, pages)?;
        Ok(Found::Vacant(Vacancy {
            folder: self,
            log,
            pages,
        }))
    }

    /// Whether there is a whole database. Where there is none, a new one may be laid out.
    ///
    /// Device: the folder can't be asked, the control block is a link that leads nowhere, or there
    /// is none, but a log or pages that have data. Memory: there was none for a name or for what a
    /// file holds.
    pub fn is_kept<R: Files<File = F> + AllocGlobal>(&self, rt: &R) -> Result<bool, Fault>
        ensures fails { IfErr result IsOfOpening }
    {
        match self.find(rt)? {
            Found::Kept => Ok(true),
            Found::Vacant(_) => Ok(false),
        }
    }

    /// Opens the devices of a database, which have length / 512 blocks each, once the folder is
    /// synced.
    ///
    /// Device: the folder failed, or a file is missing or failed. Memory: there was none for what
    /// the files hold.
    pub fn open<R: Files<File = F> + AllocGlobal>(&self, rt: &R) -> Result<Devices<F>, Fault>
        ensures log { IfOk result (λ d. (k : ℕ)
            → IsSettled (⟦<FileDisk<F> as BlockDisk>⟧.slot d.log k)) }
        ensures control { IfOk result (λ d. (k : ℕ)
            → IsSettled (⟦<FileDisk<F> as BlockDisk>⟧.slot d.control k)) }
        ensures pages { IfOk result (λ d. (k : ℕ)
            → IsSettled (⟦<FileDisk<F> as BlockDisk>⟧.slot d.pages k)) }
        ensures fails { IfErr result IsOfOpening }
    {
        self.sync()?;
        let control = self.open_device(rt, Part::Control, &self.errors.control)?;
        let log = self.open_device(rt, Part::Log, &self.errors.log)?;
        let pages = self.open_device(rt, Part::Pages, &self.errors.pages)?;
        Ok(Devices {
            log,
            control,
            pages,
        })
    }

    /// Opens the control block's device of a database alone, as `open` opens all three.
    ///
    /// Device: the folder failed, or the file is missing or failed. Memory: there was none for what
    /// the file holds.
    pub fn open_control<R: Files<File = F> + AllocGlobal>(
        &self,
        rt: &R,
    ) -> Result<FileDisk<F>, Fault>
        ensures settled { IfOk result (λ disk. (k : ℕ)
            → IsSettled (⟦<FileDisk<F> as BlockDisk>⟧.slot disk k)) }
        ensures fails { IfErr result IsOfOpening }
    {
        self.sync()?;
        let control = self.open_device(rt, Part::Control, &self.errors.control)?;
        Ok(control)
    }

    /// Opens the log's and the pages' devices of a database beside that of its control block, which
    /// `open_control` gave. Of the log's, the blocks that have one of its first bytes are read, and
    /// those above are taken as zeros: nothing is known to be there.
    ///
    /// Device: a file is missing or failed. Memory: there was none for what the files hold.
    pub fn open_beside<R: Files<File = F> + AllocGlobal>(
        &self,
        rt: &R,
        control: FileDisk<F>,
        log_bytes: u64,
    ) -> Result<Devices<F>, Fault>
        ensures log { IfOk result (λ d. (k : ℕ)
            → IsSettled (⟦<FileDisk<F> as BlockDisk>⟧.slot d.log k)) }
        ensures above { IfOk result (λ d. (k : ℕ) → log_bytes ≤ k * 512
            → ⟦<FileDisk<F> as BlockDisk>⟧.slot d.log k ≡ only zeros) }
        ensures control { IfOk result (λ d. d.control ≡ control) }
        ensures pages { IfOk result (λ d. (k : ℕ)
            → IsSettled (⟦<FileDisk<F> as BlockDisk>⟧.slot d.pages k)) }
        ensures fails { IfErr result IsOfDevice }
    {
        let log = self.open_log(rt, log_bytes)?;
        let pages = self.open_device(rt, Part::Pages, &self.errors.pages)?;
        Ok(Devices {
            log,
            control,
            pages,
        })
    }

    /// Opens the files of a database to be read alone: nothing is written, as `open` does.
    ///
    /// Device: a file is missing or failed. Memory: there was none for a name.
    pub fn open_to_read<R: Files<File = F> + AllocGlobal>(
        &self,
        rt: &R,
    ) -> Result<DeviceFiles<F>, Fault>
        ensures fails { IfErr result IsOfDevice }
    {
        let log = self.open_file(rt, Part::Log)?;
        let control = self.open_file(rt, Part::Control)?;
        let pages = self.open_file(rt, Part::Pages)?;
        Ok(DeviceFiles {
            log,
            control,
            pages,
        })
    }

    /// What is wrong with a file of which a device has failed. None: no device of this folder has.
    pub fn trouble(&self) -> Option<Trouble> {
        self.errors.trouble()
    }

    /// The names of its three files, to be looked at while their devices are open. Those of a database that
    /// was there when the folder was taken are known from then on. Memory: there was none for them.
    pub fn names<R: AllocGlobal>(&self, rt: &R) -> Result<NameWatch, Fault> {
        let log = Name::new(self.path_of(rt, Part::Log)?, self.errors.log.clone()?);
        let control = Name::new(
            self.path_of(rt, Part::Control)?,
            self.errors.control.clone()?,
        );
        let pages = Name::new(self.path_of(rt, Part::Pages)?, self.errors.pages.clone()?);
        // Without a control block a layout may still replace what is locked.
        if self.locks.control.is_some() {
            log.know(&self.locks.log);
            control.know(&self.locks.control);
            pages.know(&self.locks.pages);
        }
        Ok(NameWatch::over(log, control, pages))
    }

    /// Makes the names in the folder last.
    fn sync(&self) -> Result<(), Fault>
        ensures fails { IfErr result (IsOf Itself) }
    {
        match self.held.sync_all() {
            Ok(()) => Ok(()),
            Err(e) => Err(Fault::of(Part::Itself, e)),
        }
    }

    /// Whether there is a control block. A link of its name has to lead to one.
    fn has_control<R: Files<File = F> + AllocGlobal>(&self, rt: &R) -> Result<bool, Fault>
        ensures fails { IfErr result IsOfOpening }
    {
        let path = self.path_of(rt, Part::Control)?;
        match fs::symlink_metadata(rt, path.as_path()) {
            Ok(_) => {}
            Err(e) if e.kind() == io::ErrorKind::NotFound => return Ok(false),
            Err(e) => return Err(Fault::of(Part::Itself, e)),
        }
        match fs::metadata(rt, path.as_path()) {
            Ok(_) => Ok(true),
            Err(e) => Err(Fault::of(Part::Control, e)),
        }
    }

    /// What a file without a control block holds from this byte on.
    fn holding<R: Files<File = F> + AllocGlobal>(
        &self,
        rt: &R,
        part: Part,
        from: u64,
    ) -> Result<Holding, Fault>
        ensures fails { IfErr result (IsOf part) }
    {
        let path = self.path_of(rt, part)?;
        match fs::symlink_metadata(rt, path.as_path()) {
            Ok(found) if found.is_file() => {}
            Ok(_) => return Ok(Holding::Data),
            Err(e) if e.kind() == io::ErrorKind::NotFound => return Ok(Holding::Nothing),
            Err(e) => return Err(Fault::of(part, e)),
        }
        let file = self.open_file(rt, part)?;
        match is_zero_from(rt.alloc(), &file, from) {
            Ok(true) => Ok(Holding::Nothing),
            Ok(false) => Ok(Holding::Data),
            Err(e) => Err(Fault::of(part, e)),
        }
    }

    /// Opens one device.
    fn open_device<R: Files<File = F> + AllocGlobal>(
        &self,
        rt: &R,
        part: Part,
        first_error: &FirstError,
    ) -> Result<FileDisk<F>, Fault>
        ensures settled { IfOk result (λ disk. (k : ℕ)
            → IsSettled (⟦<FileDisk<F> as BlockDisk>⟧.slot disk k)) }
        ensures fails { IfErr result (IsOf part) }
    {
        let path = self.path_of(rt, part)?;
        match FileDisk::open(rt, path.as_path(), first_error.clone()?) {
            Ok(disk) => Ok(disk),
            Err(e) => Err(Fault::of(part, e)),
        }
    }

    /// Opens the log's device below its first bytes.
    fn open_log<R: Files<File = F> + AllocGlobal>(
        &self,
        rt: &R,
        bytes: u64,
    ) -> Result<FileDisk<F>, Fault>
        ensures settled { IfOk result (λ disk. (k : ℕ)
            → IsSettled (⟦<FileDisk<F> as BlockDisk>⟧.slot disk k)) }
        ensures above { IfOk result (λ disk. (k : ℕ) → bytes ≤ k * 512
            → ⟦<FileDisk<F> as BlockDisk>⟧.slot disk k ≡ only zeros) }
        ensures fails { IfErr result (IsOf Log) }
    {
        let path = self.path_of(rt, Part::Log)?;
        match FileDisk::open_below(rt, path.as_path(), self.errors.log.clone()?, bytes) {
            Ok(disk) => Ok(disk),
            Err(e) => Err(Fault::of(Part::Log, e)),
        }
    }

    /// Opens one file to be read alone.
    fn open_file<R: Files<File = F> + AllocGlobal>(&self, rt: &R, part: Part) -> Result<F, Fault>
        ensures fails { IfErr result (IsOf part) }
    {
        let path = self.path_of(rt, part)?;
        match File::open(rt, path.as_path()) {
            Ok(file) => Ok(file),
            Err(e) => Err(Fault::of(part, e)),
        }
    }

    /// Where a part of the folder is.
    fn path_of<R: AllocGlobal>(&self, rt: &R, part: Part) -> Result<PathBuf, AllocError> {
        self.path.join(rt.alloc(), part.file_name())
    }
}
