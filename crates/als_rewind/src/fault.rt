ghost use Rattle.std.specs.Prelude.{◌≡◌, ◌⊎◌, Some};
ghost use Rattle.als_fault.specs.Kinds.{number_of, name_of, text_of};
ghost use Rattle.als_lookback.specs.declared.fault.Fault.TheVariants.{Memory, Stream};
ghost use Rattle.als_rewind.specs.declared.fault.Fault.TheVariants.{Look as OfLook};
ghost use Rattle.als_rewind.specs.declared.fault.Fault.TheVariants.{Node as OfNode};
ghost use Rattle.als_rewind.specs.FaultNames.{kind_of, trouble_of};

use als_fault::FaultKind;
use als_folder::{Fault as FolderFault, Trouble};
use als_lookback::Fault as LookFault;
use als_operate::Fault as NodeFault;
use als_record::Lsn;
use std::alloc::AllocError;
use std::{fmt, io};

/// Why a node is not taken back. The numbers are common to all crates.
#[derive(Clone, Copy, Debug, PartialEq, Eq)]
pub enum Fault {
    /// The log can't be read up to the LSN, a file beside the folder or the output failed, or an
    /// allocation failed.
    Look(LookFault),
    /// The folder, one of its files or its node is refused.
    Node(NodeFault),
    /// No record ends at the LSN. The last one below it ends here.
    NoBoundary {
        /// Where that is.
        below: Lsn,
    },
    /// The log up to the LSN would not fit its device with what a takeover may append.
    NoRoom,
    /// The file that is to keep the rest of the log is there, and has something else.
    Kept,
    /// Commits would be lost, and nobody said that these are so many.
    Loses {
        /// How many.
        commits: u64,
    },
}

impl Fault {
    /// Which of the faults of all crates it is.
    pub fn kind(self) -> FaultKind
        ensures { result ≡ kind_of self }
    {
        match self {
            Fault::Look(fault) => fault.kind(),
            Fault::Node(fault) => fault.kind(),
            Fault::NoBoundary { below: _ } => FaultKind::BadConfig,
            Fault::NoRoom => FaultKind::LogFull,
            Fault::Kept => FaultKind::Stream,
            Fault::Loses { commits: _ } => FaultKind::BadConfig,
        }
    }

    /// What of the folder is wrong. None: nothing of it is known to be.
    pub fn trouble(self) -> Option<Trouble>
        ensures { result ≡ trouble_of self }
    {
        match self {
            Fault::Look(fault) => fault.trouble(),
            Fault::Node(fault) => fault.trouble(),
            Fault::NoBoundary { below: _ }
            | Fault::NoRoom
            | Fault::Kept
            | Fault::Loses { commits: _ } => None,
        }
    }

    /// The fault's number.
    pub fn number(self) -> u32
        ensures { result ≡ number_of (kind_of self) }
    {
        self.kind().number()
    }

    /// The fault's name, as programs print it.
    pub fn name(self) -> &'static str
        ensures { result.now ≡ name_of (kind_of self) }
    {
        self.kind().name()
    }
}

impl fmt::Display for Fault {
    ghost output = { λ fault. Some (text_of (kind_of fault)) };

    fn fmt<W: fmt::Write>(&self, f: &mut fmt::Formatter<W>) -> fmt::Result {
        let kind = self.kind();
        write!(f, "{kind}")
    }
}

impl std::error::Error for Fault {}

impl From<LookFault> for Fault {
    ghost from_gives = { λ cause fault. fault ≡ OfLook cause };

    fn from(fault: LookFault) -> Fault {
        Fault::Look(fault)
    }
}

impl From<NodeFault> for Fault {
    ghost from_gives = { λ cause fault. fault ≡ OfNode cause };

    fn from(fault: NodeFault) -> Fault {
        Fault::Node(fault)
    }
}

impl From<FolderFault> for Fault {
    fn from(fault: FolderFault) -> Fault {
        Fault::Node(NodeFault::Folder(fault))
    }
}

impl From<AllocError> for Fault {
    ghost from_gives = { λ _ fault. fault ≡ OfLook Memory };

    fn from(_e: AllocError) -> Fault {
        Fault::Look(LookFault::Memory)
    }
}

impl From<io::Error> for Fault {
    ghost from_gives = { λ _ fault. (fault ≡ OfLook Memory) ⊎ (fault ≡ OfLook Stream) };

    fn from(e: io::Error) -> Fault {
        Fault::Look(LookFault::from(e))
    }
}
