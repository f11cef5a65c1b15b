ghost use Rattle.std.specs.Prelude.{◌≡◌, Some};
ghost use Rattle.als_fault.specs.Kinds.{number_of, name_of, text_of};
ghost use Rattle.als_folder.specs.declared.fault.Fault.TheVariants.{Memory as OutOfMemory};
ghost use Rattle.als_folder.specs.FaultNames.{kind_of, trouble_of, IsOf, IsOfLock};

use crate::part::Part;
use crate::trouble::{Trouble, Wrong, wrong_of};
use als_fault::FaultKind;
use std::alloc::AllocError;
use std::fs::TryLockError;
use std::io::ErrorKind;
use std::{fmt, io};

/// Why a folder is refused. The numbers are common to all crates.
#[derive(Clone, Copy, Debug, PartialEq, Eq)]
pub enum Fault {
    /// The folder or one of its files failed.
    Device(Trouble),
    /// The files are not those of one database. To callers the control block is damaged.
    Damaged(Trouble),
    /// Another program has the folder. To callers it is a device that failed.
    Busy,
    /// An allocation failed.
    Memory,
}

impl Fault {
    /// Which of the faults of all crates it is.
    pub fn kind(self) -> FaultKind
        ensures { result ≡ kind_of self }
    {
        match self {
            Fault::Device(_) | Fault::Busy => FaultKind::Device,
            Fault::Damaged(_) => FaultKind::BadControl,
            Fault::Memory => FaultKind::Memory,
        }
    }

    /// What of the folder is wrong. None: nothing is, an allocation failed.
    pub fn trouble(self) -> Option<Trouble>
        ensures { result ≡ trouble_of self }
    {
        match self {
            Fault::Device(trouble) | Fault::Damaged(trouble) => Some(trouble),
            Fault::Busy => Some(Trouble {
                part: Part::Itself,
                wrong: Wrong::Locked,
            }),
            Fault::Memory => None,
        }
    }

    /// What the failure of a call on a part of the folder is.
    pub fn of(part: Part, e: io::Error) -> Fault
        ensures { IsOf part result }
    {
        match e.kind() {
            ErrorKind::OutOfMemory => Fault::Memory,
            _ => {
                let wrong = wrong_of(&e);
                Fault::Device(Trouble { part, wrong })
            }
        }
    }

    /// What it means that a file could not be locked.
    pub(crate) fn of_file_lock(part: Part, e: TryLockError) -> Fault
        ensures { IsOf part result }
    {
        let wrong = match e {
            TryLockError::WouldBlock => Wrong::Locked,
            TryLockError::Error(_) => Wrong::Failed,
        };
        Fault::Device(Trouble { part, wrong })
    }

    /// The fault's number.
    pub fn number(self) -> u32
        ensures { result ≡ number_of (kind_of self) }
    {
        self.kind().number()
    }

    /// The fault's name, as programs print it.
    pub fn name(self) -> &'static str
        ensures { result.now ≡ name_of (kind_of self) }
    {
        self.kind().name()
    }
}

impl fmt::Display for Fault {
    ghost output = { λ fault. Some (text_of (kind_of fault)) };

    fn fmt<W: fmt::Write>(&self, f: &mut fmt::Formatter<W>) -> fmt::Result {
        let kind = self.kind();
        write!(f, "{kind}")
    }
}

impl std::error::Error for Fault {}

impl From<AllocError> for Fault {
    ghost from_gives = { λ _ fault. fault ≡ OutOfMemory };

    fn from(_e: AllocError) -> Fault {
        Fault::Memory
    }
}

impl From<TryLockError> for Fault {
    ghost from_gives = { λ _ fault. IsOfLock fault };

    fn from(e: TryLockError) -> Fault {
        match e {
            TryLockError::WouldBlock => Fault::Busy,
            TryLockError::Error(_) => Fault::Device(Trouble {
                part: Part::Itself,
                wrong: Wrong::Failed,
            }),
        }
    }
}
