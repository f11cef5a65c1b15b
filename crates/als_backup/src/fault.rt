ghost use Rattle.std.specs.Prelude.{◌≡◌, ◌⊎◌, Some};
ghost use Rattle.als_fault.specs.Kinds.{number_of, name_of, text_of};
ghost use Rattle.als_ship.specs.Faults.{of_wire};
ghost use Rattle.als_lookback.specs.declared.fault.Fault.TheVariants.{Memory, Stream};
ghost use Rattle.als_operate.specs.declared.fault.Fault.TheVariants.{Session as OfSession};
ghost use Rattle.als_backup.specs.declared.fault.Fault.TheVariants.{Look as OfLook, Node as OfNode};
ghost use Rattle.als_backup.specs.FaultNames.{kind_of, trouble_of};

use als_fault::FaultKind;
use als_folder::{Fault as FolderFault, Trouble};
use als_lookback::Fault as LookFault;
use als_operate::Fault as NodeFault;
use als_ship::Fault as SessionFault;
use als_wire::Fault as WireFault;
use std::alloc::{AllocError, AllocFailed};
use std::{fmt, io};

/// Why there is no backup, or no node of it. The numbers are common to all crates.
#[derive(Clone, Copy, Debug, PartialEq, Eq)]
pub enum Fault {
    /// A log text is none or can't be read, the output failed, or an allocation.
    Look(LookFault),
    /// The source refused, or went away; or the folder or its node is refused.
    Node(NodeFault),
    /// The folder that a node is to be restored into has something in it.
    NotEmpty,
    /// The log would not fit so few blocks.
    TooFew {
        /// How many it needs.
        needed: u64,
    },
    /// No page count of a database is that of the source.
    NoPages,
    /// The takeovers before a node are none of this log: they do not rise, or one is past its end.
    BadSeals,
}

impl Fault {
    /// Which of the faults of all crates it is.
    pub fn kind(self) -> FaultKind
        ensures { result ≡ kind_of self }
    {
        match self {
            Fault::Look(fault) => fault.kind(),
            Fault::Node(fault) => fault.kind(),
            Fault::NotEmpty => FaultKind::Device,
            Fault::TooFew { needed: _ } => FaultKind::BadConfig,
            Fault::NoPages => FaultKind::BadHeader,
            Fault::BadSeals => FaultKind::BadConfig,
        }
    }

    /// What of the folder is wrong. None: nothing of it is known to be.
    pub fn trouble(self) -> Option<Trouble>
        ensures { result ≡ trouble_of self }
    {
        match self {
            Fault::Look(fault) => fault.trouble(),
            Fault::Node(fault) => fault.trouble(),
            Fault::NotEmpty | Fault::TooFew { needed: _ } | Fault::NoPages | Fault::BadSeals =>
                None,
        }
    }

    /// The fault's number.
    pub fn number(self) -> u32
        ensures { result ≡ number_of (kind_of self) }
    {
        self.kind().number()
    }

    /// The fault's name, as programs print it.
    pub fn name(self) -> &'static str
        ensures { result.now ≡ name_of (kind_of self) }
    {
        self.kind().name()
    }
}

impl fmt::Display for Fault {
    ghost output = { λ fault. Some (text_of (kind_of fault)) };

    fn fmt<W: fmt::Write>(&self, f: &mut fmt::Formatter<W>) -> fmt::Result {
        let kind = self.kind();
        write!(f, "{kind}")
    }
}

impl std::error::Error for Fault {}

impl From<LookFault> for Fault {
    ghost from_gives = { λ cause fault. fault ≡ OfLook cause };

    fn from(fault: LookFault) -> Fault {
        Fault::Look(fault)
    }
}

impl From<NodeFault> for Fault {
    ghost from_gives = { λ cause fault. fault ≡ OfNode cause };

    fn from(fault: NodeFault) -> Fault {
        Fault::Node(fault)
    }
}

impl From<SessionFault> for Fault {
    ghost from_gives = { λ cause fault. fault ≡ OfNode (OfSession cause) };

    fn from(fault: SessionFault) -> Fault {
        Fault::Node(NodeFault::Session(fault))
    }
}

impl From<WireFault> for Fault {
    ghost from_gives = { λ met fault. fault ≡ OfNode (OfSession (of_wire met)) };

    fn from(fault: WireFault) -> Fault {
        Fault::Node(NodeFault::Session(SessionFault::from(fault)))
    }
}

impl From<FolderFault> for Fault {
    fn from(fault: FolderFault) -> Fault {
        Fault::Node(NodeFault::Folder(fault))
    }
}

impl From<AllocError> for Fault {
    ghost from_gives = { λ _ fault. fault ≡ OfLook Memory };

    fn from(_e: AllocError) -> Fault {
        Fault::Look(LookFault::Memory)
    }
}

impl<T: Drop> From<AllocFailed<T>> for Fault {
    ghost from_gives = { λ _ fault. fault ≡ OfLook Memory };

    fn from(_e: AllocFailed<T>) -> Fault {
        Fault::Look(LookFault::Memory)
    }
}

impl From<io::Error> for Fault {
    ghost from_gives = { λ _ fault. (fault ≡ OfLook Memory) ⊎ (fault ≡ OfLook Stream) };

    fn from(e: io::Error) -> Fault {
        Fault::Look(LookFault::from(e))
    }
}
