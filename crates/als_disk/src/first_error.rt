use crate::failure::Failure;
use std::alloc::{AllocError, Global};
use std::sync::{Arc, OnceLock};

/// Why a file failed first. Its clones are one note, so that the cause can still be asked for where
/// only `DeviceError` comes back.
#[derive(Clone)]
pub struct FirstError {
    noted: Arc<OnceLock<Failure>>,
}

// Written out: a derived drop is proved wherever a note is dropped, this one only here.
impl Drop for FirstError {
    fn drop(self) {
        let FirstError { noted } = self;
        drop(noted);
    }
}

impl FirstError {
    /// A note of a file that has not failed.
    pub fn new(alloc: Global) -> Result<FirstError, AllocError> {
        let noted = Arc::new(alloc, OnceLock::new())?;
        Ok(FirstError { noted })
    }

    /// Notes a failure, unless an earlier one is noted.
    pub(crate) fn note(&self, failure: Failure) {
        let _ = self.noted.try_set(failure);
    }

    /// Notes that the path by which the file was opened names it no more. The device's next sync
    /// fails. For whoever can look at the path: the device itself has the open file alone.
    pub fn note_removed(&self) {
        self.note(Failure::Removed);
    }

    /// The first failure. None: the file has not failed.
    pub fn failure(&self) -> Option<Failure> {
        self.noted.get().copied()
    }
}
