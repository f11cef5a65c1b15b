// The file that makes a folder a primary's.
ghost use Rattle.std.specs.Prelude.{◌≡◌, IfErr};
ghost use Rattle.als_folder.specs.FaultNames.{IsOf, IsOfRole};
ghost use Rattle.als_folder.specs.declared.part.Part.TheVariants.{NewRole, Role as OfRole};

use super::Folder;
use crate::fault::Fault;
use crate::part::Part;
use crate::role::Role;
use crate::trouble::{Trouble, Wrong};
use std::fs::{self, OpenFile, OpenOptions};
use std::os::unix::fs::{FileExt, OpenOptionsExt};
use std::rt::Files;
use std::{io, vec};

/// A longer file says no role.
const LONGEST: u64 = 32;

impl<F: OpenFile + FileExt + Drop> Folder<F> {
    /// Which epoch the folder's primary writes. None: the folder is not a primary's.
    ///
    /// Device: the file can't be read, or says something else. Memory: there was none for its text.
    pub fn role<R: Files<File = F> + AllocGlobal>(&self, rt: &R) -> Result<Option<Role>, Fault>
        ensures fails { IfErr result (IsOf OfRole) }
    {
        let path = self.path_of(rt, Part::Role)?;
        match fs::symlink_metadata(rt, path.as_path()) {
            Ok(_) => {}
            Err(e) if e.kind() == io::ErrorKind::NotFound => return Ok(None),
            Err(e) => return Err(Fault::of(Part::Role, e)),
        }
        let file = self.open_file(rt, Part::Role)?;
        let found = match file.metadata() {
            Ok(found) => found,
            Err(e) => return Err(Fault::of(Part::Role, e)),
        };
        if LONGEST < found.len() {
            return Err(bad_role());
        }
        let mut text = vec![in rt.alloc(); 0; found.len() as usize]?;
        match file.read_exact_at(text.as_mut_slice(), 0) {
            Ok(()) => {}
            Err(e) => return Err(Fault::of(Part::Role, e)),
        }
        match Role::of_text(rt.alloc(), text.as_slice())? {
            Some(role) => Ok(Some(role)),
            None => Err(bad_role()),
        }
    }

    /// Makes the folder a primary's, and makes that last. A role that it had is replaced. A stop on
    /// the way leaves the one or the other, whole.
    ///
    /// Device: the folder or the file failed. Memory: there was none for a name or the text.
    pub fn make_role<R: Files<File = F> + AllocGlobal>(
        &self,
        rt: &R,
        role: Role,
    ) -> Result<(), Fault>
        ensures fails { IfErr result IsOfRole }
    {
        self.remove(rt, Part::NewRole)?;
        self.write_role(rt, role)?;
        self.rename(rt, Part::NewRole, Part::Role)?;
        self.sync()?;
        Ok(())
    }

    /// Makes the folder a standby's again, and makes that last.
    ///
    /// Device: the folder or the file failed. Memory: there was none for a name.
    pub fn remove_role<R: Files<File = F> + AllocGlobal>(&self, rt: &R) -> Result<(), Fault>
        ensures fails { IfErr result IsOfRole }
    {
        self.remove(rt, Part::Role)?;
        self.sync()?;
        Ok(())
    }

    /// Writes the text of a role into a file of its own, which only its owner may read or write, and
    /// syncs it.
    fn write_role<R: Files<File = F> + AllocGlobal>(&self, rt: &R, role: Role) -> Result<(), Fault>
        ensures fails { IfErr result (IsOf NewRole) }
    {
        let text = role.text(rt.alloc())?;
        let path = self.path_of(rt, Part::NewRole)?;
        let made = OpenOptions::new()
            .write(true)
            .create_new(true)
            .mode(0o600)
            .open(rt, path.as_path());
        let file = match made {
            Ok(file) => file,
            Err(e) => return Err(Fault::of(Part::NewRole, e)),
        };
        match file.write_all_at(text.as_bytes(), 0) {
            Ok(()) => {}
            Err(e) => return Err(Fault::of(Part::NewRole, e)),
        }
        match file.sync_all() {
            Ok(()) => Ok(()),
            Err(e) => Err(Fault::of(Part::NewRole, e)),
        }
    }
}

/// The file says no role.
fn bad_role() -> Fault
    ensures { IsOf OfRole result }
{
    Fault::Device(Trouble {
        part: Part::Role,
        wrong: Wrong::BadRole,
    })
}
