ghost use Rattle.std.specs.Prelude.{◌≡◌, ◌⊎◌, Some};
ghost use Rattle.als_fault.specs.Kinds.{number_of, name_of, text_of};
ghost use Rattle.als_lookback.specs.declared.fault.Fault.TheVariants.{Memory as OutOfMemory};
ghost use Rattle.als_lookback.specs.declared.fault.Fault.TheVariants.{Stream as StreamFailed};
ghost use Rattle.als_lookback.specs.declared.fault.Fault.TheVariants.{Folder as OfFolder};
ghost use Rattle.als_lookback.specs.FaultNames.{kind_of, trouble_of, of_shape, of_judgement};

use als_fault::FaultKind;
use als_folder::{Fault as FolderFault, Part, Trouble, Wrong, trouble_of};
use als_record::{Cause, Fault as ShapeFault, Lsn};
use als_validator::Fault as Judgement;
use std::alloc::AllocError;
use std::io::ErrorKind;
use std::{fmt, io};

/// Why a look back is refused, or a log's device does not grow. The numbers are common to all
/// crates.
#[derive(Clone, Copy, Debug, PartialEq, Eq)]
pub enum Fault {
    /// An allocation failed.
    Memory,
    /// The log file or the output failed, or the file is longer than the largest log.
    Stream,
    /// The text does not begin with a log's header.
    BadHeader,
    /// The control block is none, or not that of this log.
    BadControl,
    /// The text ends within a record.
    Cut,
    /// The folder or one of its files failed, or another program has it.
    Folder(FolderFault),
    /// The bytes are no record.
    Shape(ShapeFault),
    /// The record may not follow those before it.
    Invalid(Cause),
    /// The LSN is within the log's header.
    InHeader,
    /// The LSN is past the log's end, which is here.
    PastEnd {
        /// Where the log ends.
        end: Lsn,
    },
    /// The log has no commit of the transaction.
    NoCommit,
    /// The log's device has so many blocks already, and would not be longer.
    NotLonger {
        /// How many it has.
        blocks: u64,
    },
    /// The log's device would have more blocks than the largest log.
    TooLong,
}

impl Fault {
    /// Which of the faults of all crates it is.
    pub fn kind(self) -> FaultKind
        ensures { result ≡ kind_of self }
    {
        match self {
            Fault::Memory => FaultKind::Memory,
            Fault::Stream => FaultKind::Stream,
            Fault::BadHeader => FaultKind::BadHeader,
            Fault::BadControl => FaultKind::BadControl,
            Fault::Cut => FaultKind::Cut,
            Fault::Folder(fault) => fault.kind(),
            Fault::Shape(fault) => fault.kind(),
            Fault::Invalid(cause) => cause.kind(),
            Fault::InHeader => FaultKind::BadConfig,
            Fault::PastEnd { end: _ } => FaultKind::BadConfig,
            Fault::NoCommit => FaultKind::BadConfig,
            Fault::NotLonger { blocks: _ } => FaultKind::BadConfig,
            Fault::TooLong => FaultKind::BadConfig,
        }
    }

    /// What of the folder is wrong; of a log file it tells as of the folder's log. None: nothing is
    /// known to be.
    pub fn trouble(self) -> Option<Trouble>
        ensures { result ≡ trouble_of self }
    {
        match self {
            Fault::Folder(fault) => fault.trouble(),
            Fault::Cut => Some(Trouble {
                part: Part::Log,
                wrong: Wrong::Short,
            }),
            _ => trouble_of(self.kind()),
        }
    }

    /// The fault's number.
    pub fn number(self) -> u32
        ensures { result ≡ number_of (kind_of self) }
    {
        self.kind().number()
    }

    /// The fault's name, as programs print it.
    pub fn name(self) -> &'static str
        ensures { result.now ≡ name_of (kind_of self) }
    {
        self.kind().name()
    }
}

impl fmt::Display for Fault {
    ghost output = { λ fault. Some (text_of (kind_of fault)) };

    fn fmt<W: fmt::Write>(&self, f: &mut fmt::Formatter<W>) -> fmt::Result {
        let kind = self.kind();
        write!(f, "{kind}")
    }
}

impl std::error::Error for Fault {}

impl From<AllocError> for Fault {
    ghost from_gives = { λ _ fault. fault ≡ OutOfMemory };

    fn from(_e: AllocError) -> Fault {
        Fault::Memory
    }
}

impl From<io::Error> for Fault {
    ghost from_gives = { λ _ fault. (fault ≡ OutOfMemory) ⊎ (fault ≡ StreamFailed) };

    fn from(e: io::Error) -> Fault {
        match e.kind() {
            ErrorKind::OutOfMemory => Fault::Memory,
            _ => Fault::Stream,
        }
    }
}

impl From<FolderFault> for Fault {
    ghost from_gives = { λ cause fault. fault ≡ OfFolder cause };

    fn from(fault: FolderFault) -> Fault {
        Fault::Folder(fault)
    }
}

impl From<ShapeFault> for Fault {
    ghost from_gives = { λ shape fault. fault ≡ of_shape shape };

    fn from(shape: ShapeFault) -> Fault {
        match shape {
            ShapeFault::Memory => Fault::Memory,
            _ => Fault::Shape(shape),
        }
    }
}

impl From<Judgement> for Fault {
    ghost from_gives = { λ judgement fault. fault ≡ of_judgement judgement };

    fn from(judgement: Judgement) -> Fault {
        match judgement {
            Judgement::Invalid(cause) => Fault::Invalid(cause),
            Judgement::Memory => Fault::Memory,
        }
    }
}
