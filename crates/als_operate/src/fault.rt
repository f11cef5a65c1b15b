ghost use Rattle.std.specs.Prelude.{◌≡◌, ◌⊎◌, Some};
ghost use Rattle.als_fault.specs.Kinds.{number_of, name_of, text_of};
ghost use Rattle.als_operate.specs.declared.fault.Fault.TheVariants.{Memory as OutOfMemory};
ghost use Rattle.als_operate.specs.declared.fault.Fault.TheVariants.{Stream as StreamFailed};
ghost use Rattle.als_operate.specs.declared.fault.Fault.TheVariants.{Folder as OfFolder};
ghost use Rattle.als_operate.specs.declared.fault.Fault.TheVariants.{Session as OfSession};
ghost use Rattle.als_operate.specs.declared.fault.Fault.TheVariants.{Refused as OfStandby};
ghost use Rattle.als_operate.specs.FaultNames.{kind_of, trouble_of};

use als_engine::Fault as EngineFault;
use als_fault::FaultKind;
use als_folder::{Fault as FolderFault, Trouble, trouble_of};
use als_ship::Fault as SessionFault;
use std::alloc::AllocError;
use std::io::ErrorKind;
use std::{fmt, io};

/// Why a command is refused. The numbers are common to all crates.
#[derive(Clone, Copy, Debug, PartialEq, Eq)]
pub enum Fault {
    /// Allocation failed.
    Memory,
    /// A file, an address or a stream failed, or there was more than the limit.
    Stream,
    /// The folder of a standby, or one of its files, is refused.
    Folder(FolderFault),
    /// The session did not begin, or it ended early.
    Session(SessionFault),
    /// There is no standby, or it refused an event.
    Refused(EngineFault),
    /// The held log and that of the other end part where both have bytes.
    OtherLog,
}

impl Fault {
    /// Which of the faults of all crates it is.
    pub fn kind(self) -> FaultKind
        ensures { result ≡ kind_of self }
    {
        match self {
            Fault::Memory => FaultKind::Memory,
            Fault::Stream => FaultKind::Stream,
            Fault::Folder(fault) => fault.kind(),
            Fault::Session(fault) => fault.kind(),
            Fault::Refused(fault) => fault.kind(),
            Fault::OtherLog => FaultKind::OtherLog,
        }
    }

    /// What of the folder is wrong. None: nothing of it is known to be.
    pub fn trouble(self) -> Option<Trouble>
        ensures { result ≡ trouble_of self }
    {
        match self {
            Fault::Folder(fault) => fault.trouble(),
            Fault::Refused(fault) => trouble_of(fault.kind()),
            Fault::Memory | Fault::Stream | Fault::Session(_) | Fault::OtherLog => None,
        }
    }

    /// The fault's number.
    pub fn number(self) -> u32
        ensures { result ≡ number_of (kind_of self) }
    {
        self.kind().number()
    }

    /// The fault's name, as programs print it.
    pub fn name(self) -> &'static str
        ensures { result.now ≡ name_of (kind_of self) }
    {
        self.kind().name()
    }
}

impl fmt::Display for Fault {
    ghost output = { λ fault. Some (text_of (kind_of fault)) };

    fn fmt<W: fmt::Write>(&self, f: &mut fmt::Formatter<W>) -> fmt::Result {
        let kind = self.kind();
        write!(f, "{kind}")
    }
}

impl std::error::Error for Fault {}

impl From<AllocError> for Fault {
    ghost from_gives = { λ _ fault. fault ≡ OutOfMemory };

    fn from(_e: AllocError) -> Fault {
        Fault::Memory
    }
}

impl From<io::Error> for Fault {
    ghost from_gives = { λ _ fault. (fault ≡ OutOfMemory) ⊎ (fault ≡ StreamFailed) };

    fn from(e: io::Error) -> Fault {
        match e.kind() {
            ErrorKind::OutOfMemory => Fault::Memory,
            _ => Fault::Stream,
        }
    }
}

impl From<SessionFault> for Fault {
    ghost from_gives = { λ cause fault. fault ≡ OfSession cause };

    fn from(fault: SessionFault) -> Fault {
        Fault::Session(fault)
    }
}

impl From<FolderFault> for Fault {
    ghost from_gives = { λ cause fault. fault ≡ OfFolder cause };

    fn from(fault: FolderFault) -> Fault {
        Fault::Folder(fault)
    }
}

impl From<EngineFault> for Fault {
    ghost from_gives = { λ cause fault. fault ≡ OfStandby cause };

    fn from(fault: EngineFault) -> Fault {
        Fault::Refused(fault)
    }
}
