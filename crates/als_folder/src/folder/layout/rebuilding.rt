// How the pages of a database are laid out anew.
//
//     log.blk  control.blk  pages.new       the pages that are laid out, beside those that are there, if any are
//     log.blk  control.blk  pages.blk       the pages, once they have their name
ghost use Rattle.std.specs.Prelude.{◌≡◌, ℕ, IfOk, IfErr};
ghost use Rattle.als_disk.specs.Slot.{only, IsSettled};
ghost use Rattle.als_disk.specs.Store.{zeros};
ghost use Rattle.als_folder.specs.FaultNames.{IsOf, IsOfOpening, IsOfLayout};

use super::super::Folder;
use crate::fault::Fault;
use crate::part::Part;
use als_disk::{BlockDisk, FileDisk};
use std::fs::OpenFile;
use std::os::unix::fs::FileExt;
use std::rt::Files;

impl<F: OpenFile + FileExt + Drop> Folder<F> {
    /// Opens the log's device of a database alone, as `open` opens all three.
    ///
    /// Device: the folder failed, or the file is missing or failed. Memory: there was none for what
    /// the file holds.
    pub fn open_whole_log<R: Files<File = F> + AllocGlobal>(
        &self,
        rt: &R,
    ) -> Result<FileDisk<F>, Fault>
        ensures settled { IfOk result (λ disk. (k : ℕ)
            → IsSettled (⟦<FileDisk<F> as BlockDisk>⟧.slot disk k)) }
        ensures fails { IfErr result IsOfOpening }
    {
        self.sync()?;
        let log = self.open_device(rt, Part::Log, &self.errors.log)?;
        Ok(log)
    }

    /// Makes a device of zeros for so many pages, which are not those of the database before
    /// `keep_pages`. What an earlier call left is taken away.
    ///
    /// Device: the file failed, or it would be too long. Memory: there was none for a name or a
    /// piece of zeros.
    pub fn lay_out_pages<R: Files<File = F> + AllocGlobal>(
        &self,
        rt: &R,
        pages: u64,
    ) -> Result<FileDisk<F>, Fault>
        ensures count { IfOk result (λ disk.
            ⟦<FileDisk<F> as BlockDisk>⟧.block_count disk ≡ pages) }
        ensures zeros { IfOk result (λ disk. (k : ℕ)
            → ⟦<FileDisk<F> as BlockDisk>⟧.slot disk k ≡ only zeros) }
        ensures fails { IfErr result (IsOf Part.NewPages) }
    {
        self.remove(rt, Part::NewPages)?;
        let pages = self.create_device(rt, Part::NewPages, pages, &self.errors.pages)?;
        Ok(pages)
    }

    /// Makes the pages that were laid out those of the database, in the place of what was there, and
    /// makes that last.
    ///
    /// Device: the folder failed, and the pages may or may not be there. Memory: there was none for
    /// a name.
    pub fn keep_pages<R: Files<File = F> + AllocGlobal>(&self, rt: &R) -> Result<(), Fault>
        ensures fails { IfErr result IsOfLayout }
    {
        // No crash may give the name to a file that the folder does not have yet.
        self.sync()?;
        self.rename(rt, Part::NewPages, Part::Pages)?;
        self.sync()?;
        Ok(())
    }
}
