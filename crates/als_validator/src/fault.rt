ghost use Rattle.std.specs.Prelude.{◌≡◌, Some};
ghost use Rattle.als_fault.specs.Kinds.{number_of, name_of, text_of};
ghost use Rattle.als_validator.specs.declared.fault.Fault.TheVariants.{Memory};
ghost use Rattle.als_validator.specs.FaultNames.{kind_of};

use als_fault::FaultKind;
use als_record::Cause;
use std::alloc::{AllocError, AllocFailed};
use std::fmt;

/// Why a record is not admitted, or why there is no room for it. The numbers are common to all
/// crates.
#[derive(Clone, Copy, Debug, PartialEq, Eq)]
pub enum Fault {
    /// The record may not follow the log.
    Invalid(Cause),
    /// An allocation failed.
    Memory,
}

impl Fault {
    /// Which of the faults of all crates it is.
    pub fn kind(self) -> FaultKind
        ensures { result ≡ kind_of self }
    {
        match self {
            Fault::Invalid(cause) => cause.kind(),
            Fault::Memory => FaultKind::Memory,
        }
    }

    /// The fault's number.
    pub fn number(self) -> u32
        ensures { result ≡ number_of (kind_of self) }
    {
        self.kind().number()
    }

    /// The fault's name, as programs print it.
    pub fn name(self) -> &'static str
        ensures { result.now ≡ name_of (kind_of self) }
    {
        self.kind().name()
    }
}

impl fmt::Display for Fault {
    ghost output = { λ fault. Some (text_of (kind_of fault)) };

    fn fmt<W: fmt::Write>(&self, f: &mut fmt::Formatter<W>) -> fmt::Result {
        let kind = self.kind();
        write!(f, "{kind}")
    }
}

impl std::error::Error for Fault {}

impl From<AllocError> for Fault {
    ghost from_gives = { λ _ e. e ≡ Memory };

    fn from(_e: AllocError) -> Fault {
        Fault::Memory
    }
}

impl<T: Drop> From<AllocFailed<T>> for Fault {
    ghost from_gives = { λ _ e. e ≡ Memory };

    fn from(_e: AllocFailed<T>) -> Fault {
        Fault::Memory
    }
}

impl From<als_analysis::Fault> for Fault {
    ghost from_gives = { λ _ e. e ≡ Memory };

    fn from(_e: als_analysis::Fault) -> Fault {
        Fault::Memory
    }
}
