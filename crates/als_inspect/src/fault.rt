ghost use Rattle.std.specs.Prelude.{◌≡◌, ◌⊎◌, Some};
ghost use Rattle.als_fault.specs.Kinds.{number_of, name_of, text_of};
ghost use Rattle.als_inspect.specs.declared.fault.Fault.TheVariants.{Memory as OutOfMemory};
ghost use Rattle.als_inspect.specs.declared.fault.Fault.TheVariants.{Stream as StreamFailed};
ghost use Rattle.als_inspect.specs.declared.fault.Fault.TheVariants.{Folder as OfFolder};
ghost use Rattle.als_inspect.specs.declared.fault.Fault.TheVariants.{Standby as OfStandby};
ghost use Rattle.als_inspect.specs.FaultNames.{kind_of, trouble_of};

use als_engine::Fault as EngineFault;
use als_fault::FaultKind;
use als_folder::{Fault as FolderFault, Part, Trouble, Wrong, trouble_of};
use als_scan::Fault as ScanFault;
use std::alloc::AllocError;
use std::io::ErrorKind;
use std::{fmt, io};

/// Why a log or a standby is not sound, or can't be read. The numbers are common to all crates.
#[derive(Clone, Copy, Debug, PartialEq, Eq)]
pub enum Fault {
    /// An allocation failed.
    Memory,
    /// The log file or the output failed, or the file is longer than the largest log.
    Stream,
    /// The text does not begin with a log's header.
    BadHeader,
    /// The control block is none, or not that of this log.
    BadControl,
    /// The log file ends within a record.
    Cut,
    /// The folder or one of its files failed, or another program has it.
    Folder(FolderFault),
    /// A record is none, or may not follow those before it.
    Log(ScanFault),
    /// A restart would refuse the folder's database, or fail on one of its pages.
    Standby(EngineFault),
}

impl Fault {
    /// Which of the faults of all crates it is.
    pub fn kind(self) -> FaultKind
        ensures { result ≡ kind_of self }
    {
        match self {
            Fault::Memory => FaultKind::Memory,
            Fault::Stream => FaultKind::Stream,
            Fault::BadHeader => FaultKind::BadHeader,
            Fault::BadControl => FaultKind::BadControl,
            Fault::Cut => FaultKind::Cut,
            Fault::Folder(fault) => fault.kind(),
            Fault::Log(fault) => fault.kind(),
            Fault::Standby(fault) => fault.kind(),
        }
    }

    /// What of the folder is wrong; of a log file it tells as of the folder's log. None: nothing is
    /// known to be.
    pub fn trouble(self) -> Option<Trouble>
        ensures { result ≡ trouble_of self }
    {
        match self {
            Fault::Folder(fault) => fault.trouble(),
            Fault::Cut => Some(Trouble {
                part: Part::Log,
                wrong: Wrong::Short,
            }),
            _ => trouble_of(self.kind()),
        }
    }

    /// The fault's number.
    pub fn number(self) -> u32
        ensures { result ≡ number_of (kind_of self) }
    {
        self.kind().number()
    }

    /// The fault's name, as programs print it.
    pub fn name(self) -> &'static str
        ensures { result.now ≡ name_of (kind_of self) }
    {
        self.kind().name()
    }
}

impl fmt::Display for Fault {
    ghost output = { λ fault. Some (text_of (kind_of fault)) };

    fn fmt<W: fmt::Write>(&self, f: &mut fmt::Formatter<W>) -> fmt::Result {
        let kind = self.kind();
        write!(f, "{kind}")
    }
}

impl std::error::Error for Fault {}

impl From<AllocError> for Fault {
    ghost from_gives = { λ _ fault. fault ≡ OutOfMemory };

    fn from(_e: AllocError) -> Fault {
        Fault::Memory
    }
}

impl From<io::Error> for Fault {
    ghost from_gives = { λ _ fault. (fault ≡ OutOfMemory) ⊎ (fault ≡ StreamFailed) };

    fn from(e: io::Error) -> Fault {
        match e.kind() {
            ErrorKind::OutOfMemory => Fault::Memory,
            _ => Fault::Stream,
        }
    }
}

impl From<FolderFault> for Fault {
    ghost from_gives = { λ cause fault. fault ≡ OfFolder cause };

    fn from(fault: FolderFault) -> Fault {
        Fault::Folder(fault)
    }
}

impl From<EngineFault> for Fault {
    ghost from_gives = { λ cause fault. fault ≡ OfStandby cause };

    fn from(fault: EngineFault) -> Fault {
        Fault::Standby(fault)
    }
}
