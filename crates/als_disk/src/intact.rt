// Whether a file that is open is still the one that its device writes.
ghost use Rattle.std.specs.Prelude.{◌≡◌, ◌≤◌, ◌*◌, ◌^◌, ◌<◌, OnOk};
ghost use Rattle.std.specs.Fs.{metadata_len};

use crate::failure::Failure;
use std::fs::{Metadata, OpenFile};
use std::os::unix::fs::MetadataExt;

/// What a file has to keep while it is open.
#[derive(Clone, Copy, Drop)]
pub(crate) struct Intact {
    /// Its length, at least.
    bytes: u64,
    /// Whether its system counts names. A file of a test has none from the beginning.
    is_named: bool,
}

impl Intact {
    /// The length of these blocks, and a name where the file has one now.
    pub(crate) fn of(found: &Metadata, blocks: u64) -> Intact
        requires { blocks * 512 < 2 ^ 64 }
        ensures { result.bytes ≡ blocks * 512 }
    {
        Intact {
            bytes: blocks * 512,
            is_named: 0 < found.nlink(),
        }
    }

    /// Refuses a file that lost its last name, or a part of its length. Names that came or went are
    /// no failure while one is left: a backup makes them.
    pub(crate) fn check<F: OpenFile>(&self, file: &F) -> Result<(), Failure> {
        match file.metadata() {
            Ok(found) => self.check_found(&found),
            Err(error) => Err(Failure::of_call(&error)),
        }
    }

    /// The same of a file of which this was found.
    fn check_found(&self, found: &Metadata) -> Result<(), Failure>
        ensures { OnOk result (self.now.bytes ≤ metadata_len found.now) }
    {
        if self.is_named && found.nlink() == 0 {
            return Err(Failure::Removed);
        }
        let bytes = found.len();
        if bytes < self.bytes {
            return Err(Failure::Cut { bytes });
        }
        Ok(())
    }
}
