use crate::part::Part;
use crate::trouble::{Trouble, wrong_of_failure};
use als_disk::FirstError;
use std::alloc::{AllocError, Global};

/// The first error of each device's file.
pub(crate) struct Errors {
    pub(crate) log: FirstError,
    pub(crate) control: FirstError,
    pub(crate) pages: FirstError,
}

// Written out: a derived drop is proved wherever the notes are dropped, this one only here.
impl Drop for Errors {
    fn drop(self) {
        let Errors {
            log,
            control,
            pages,
        } = self;
        drop(log);
        drop(control);
        drop(pages);
    }
}

impl Errors {
    /// No file has failed.
    pub(crate) fn new(alloc: Global) -> Result<Errors, AllocError> {
        Ok(Errors {
            log: FirstError::new(alloc)?,
            control: FirstError::new(alloc)?,
            pages: FirstError::new(alloc)?,
        })
    }

    /// What is wrong with a file that failed.
    pub(crate) fn trouble(&self) -> Option<Trouble> {
        let failed = [
            (Part::Log, self.log.failure()),
            (Part::Control, self.control.failure()),
            (Part::Pages, self.pages.failure()),
        ];
        for (part, failure) in failed {
            if let Some(failure) = failure {
                let wrong = wrong_of_failure(failure);
                return Some(Trouble { part, wrong });
            }
        }
        None
    }
}
