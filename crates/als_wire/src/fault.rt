ghost use Rattle.std.specs.Prelude.{◌≡◌, Some};
ghost use Rattle.als_fault.specs.Kinds.{number_of, name_of, text_of};
ghost use Rattle.als_wire.specs.declared.fault.Fault.TheVariants.{Memory};
ghost use Rattle.als_wire.specs.Faults.{kind_of, IsOfStream};

use als_fault::FaultKind;
use std::alloc::{AllocError, AllocFailed};
use std::io::ErrorKind;
use std::{fmt, io};

/// Why no frame is read or written. The numbers are common to all crates.
#[derive(Clone, Copy, Debug, PartialEq, Eq)]
pub enum Fault {
    /// The header of the other end's log is damaged.
    BadHeader,
    /// An allocation failed.
    Memory,
    /// A frame is not the one that may come, or its history is none.
    BadFrame,
    /// The stream ended where more was wanted.
    Cut,
    /// The stream failed.
    Stream,
}

impl Fault {
    /// Which of the faults of all crates it is.
    pub fn kind(self) -> FaultKind
        ensures { result ≡ kind_of self }
    {
        match self {
            Fault::BadHeader => FaultKind::BadHeader,
            Fault::Memory => FaultKind::Memory,
            Fault::BadFrame => FaultKind::BadFrame,
            Fault::Cut => FaultKind::Cut,
            Fault::Stream => FaultKind::Stream,
        }
    }

    /// The fault's number.
    pub fn number(self) -> u32
        ensures { result ≡ number_of (kind_of self) }
    {
        self.kind().number()
    }

    /// The fault's name, as programs print it.
    pub fn name(self) -> &'static str
        ensures { result.now ≡ name_of (kind_of self) }
    {
        self.kind().name()
    }
}

impl fmt::Display for Fault {
    ghost output = { λ fault. Some (text_of (kind_of fault)) };

    fn fmt<W: fmt::Write>(&self, f: &mut fmt::Formatter<W>) -> fmt::Result {
        let kind = self.kind();
        write!(f, "{kind}")
    }
}

impl std::error::Error for Fault {}

impl From<io::Error> for Fault {
    ghost from_gives = { λ _ fault. IsOfStream fault };

    fn from(e: io::Error) -> Fault {
        if e.kind() == ErrorKind::UnexpectedEof {
            Fault::Cut
        } else {
            Fault::Stream
        }
    }
}

impl From<AllocError> for Fault {
    ghost from_gives = { λ _ fault. fault ≡ Memory };

    fn from(_e: AllocError) -> Fault {
        Fault::Memory
    }
}

impl<T: Drop> From<AllocFailed<T>> for Fault {
    ghost from_gives = { λ _ fault. fault ≡ Memory };

    fn from(_e: AllocFailed<T>) -> Fault {
        Fault::Memory
    }
}
