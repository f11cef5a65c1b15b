// The file that says which folder it is.
ghost use Rattle.std.specs.Prelude.{IfErr};
ghost use Rattle.als_folder.specs.FaultNames.{IsOf, IsOfId};
ghost use Rattle.als_folder.specs.declared.part.Part.TheVariants.{Id as OfId, NewId};

use super::Folder;
use crate::fault::Fault;
use crate::folder_id::{FolderId, ID_BYTES};
use crate::part::Part;
use std::fs::{self, OpenFile, OpenOptions};
use std::io;
use std::os::unix::fs::{FileExt, OpenOptionsExt};
use std::rt::Files;

impl<F: OpenFile + FileExt + Drop> Folder<F> {
    /// Which folder it is. None: it has no file that says so, or one of another length, which says nothing.
    ///
    /// Device: the file can't be read. Memory: there was none for its name.
    pub fn id<R: Files<File = F> + AllocGlobal>(&self, rt: &R) -> Result<Option<FolderId>, Fault>
        ensures fails { IfErr result (IsOf OfId) }
    {
        let path = self.path_of(rt, Part::Id)?;
        match fs::symlink_metadata(rt, path.as_path()) {
            Ok(_) => {}
            Err(e) if e.kind() == io::ErrorKind::NotFound => return Ok(None),
            Err(e) => return Err(Fault::of(Part::Id, e)),
        }
        let file = self.open_file(rt, Part::Id)?;
        match file.metadata() {
            Ok(found) if found.len() == ID_BYTES => {}
            Ok(_) => return Ok(None),
            Err(e) => return Err(Fault::of(Part::Id, e)),
        }
        let mut bytes = [0; ID_BYTES as usize];
        match file.read_exact_at(&mut bytes, 0) {
            Ok(()) => Ok(Some(FolderId { bytes })),
            Err(e) => Err(Fault::of(Part::Id, e)),
        }
    }

    /// Says from now on which folder it is, and makes that last. A stop on the way leaves what was there, whole.
    ///
    /// Device: the folder or the file failed. Memory: there was none for a name.
    pub fn make_id<R: Files<File = F> + AllocGlobal>(
        &self,
        rt: &R,
        id: FolderId,
    ) -> Result<(), Fault>
        ensures fails { IfErr result IsOfId }
    {
        self.remove(rt, Part::NewId)?;
        self.write_id(rt, id)?;
        self.rename(rt, Part::NewId, Part::Id)?;
        self.sync()?;
        Ok(())
    }

    /// Writes an id into a file of its own, which only its owner may read or write, and syncs it.
    fn write_id<R: Files<File = F> + AllocGlobal>(&self, rt: &R, id: FolderId) -> Result<(), Fault>
        ensures fails { IfErr result (IsOf NewId) }
    {
        let path = self.path_of(rt, Part::NewId)?;
        let made = OpenOptions::new()
            .write(true)
            .create_new(true)
            .mode(0o600)
            .open(rt, path.as_path());
        let file = match made {
            Ok(file) => file,
            Err(e) => return Err(Fault::of(Part::NewId, e)),
        };
        match file.write_all_at(&id.bytes, 0) {
            Ok(()) => {}
            Err(e) => return Err(Fault::of(Part::NewId, e)),
        }
        match file.sync_all() {
            Ok(()) => Ok(()),
            Err(e) => Err(Fault::of(Part::NewId, e)),
        }
    }
}
