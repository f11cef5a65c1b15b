ghost use Rattle.std.specs.Prelude.{◌≡◌, Some};
ghost use Rattle.als_fault.specs.Kinds.{number_of, name_of, text_of};
ghost use Rattle.als_record.specs.declared.fault.Fault.TheVariants.{Memory};
ghost use Rattle.als_record.specs.FaultNames.{kind_of};

use als_fault::FaultKind;
use std::alloc::{AllocError, AllocFailed};
use std::fmt;

/// Why bytes are no log header or no record, or why there is none yet. The numbers are common to
/// all crates.
#[derive(Clone, Copy, Debug, PartialEq, Eq)]
pub enum Fault {
    /// The log's header has another text, a page count out of 1 to 4,096, or a byte that must be
    /// zero.
    BadHeader,
    /// A record's length is out of its type's range, or not what its fields make it.
    BadLength,
    /// There is no such type of record.
    BadType,
    /// A byte that must be zero is not.
    BadReserved,
    /// A record names another LSN than that of the place where it stands.
    WrongLsn,
    /// A page at or past the database's page count, or a slot above 14.
    BadKey,
    /// A value of more than 31 bytes.
    BadValue,
    /// An allocation failed.
    Memory,
}

impl Fault {
    /// Which of the faults of all crates it is.
    pub fn kind(self) -> FaultKind
        ensures { result ≡ kind_of self }
    {
        match self {
            Fault::BadHeader => FaultKind::BadHeader,
            Fault::BadLength => FaultKind::BadLength,
            Fault::BadType => FaultKind::BadType,
            Fault::BadReserved => FaultKind::BadReserved,
            Fault::WrongLsn => FaultKind::WrongLsn,
            Fault::BadKey => FaultKind::BadKey,
            Fault::BadValue => FaultKind::BadValue,
            Fault::Memory => FaultKind::Memory,
        }
    }

    /// The fault's number.
    pub fn number(self) -> u32
        ensures { result ≡ number_of (kind_of self) }
    {
        self.kind().number()
    }

    /// The fault's name, as programs print it.
    pub fn name(self) -> &'static str
        ensures { result.now ≡ name_of (kind_of self) }
    {
        self.kind().name()
    }
}

impl fmt::Display for Fault {
    ghost output = { λ fault. Some (text_of (kind_of fault)) };

    fn fmt<W: fmt::Write>(&self, f: &mut fmt::Formatter<W>) -> fmt::Result {
        let kind = self.kind();
        write!(f, "{kind}")
    }
}

impl std::error::Error for Fault {}

impl From<AllocError> for Fault {
    ghost from_gives = { λ _ e. e ≡ Memory };

    fn from(_e: AllocError) -> Fault {
        Fault::Memory
    }
}

impl<T: Drop> From<AllocFailed<T>> for Fault {
    ghost from_gives = { λ _ e. e ≡ Memory };

    fn from(_e: AllocFailed<T>) -> Fault {
        Fault::Memory
    }
}
