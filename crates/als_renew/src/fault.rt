ghost use Rattle.std.specs.Prelude.{◌≡◌, ◌⊎◌, Some};
ghost use Rattle.als_fault.specs.Kinds.{number_of, name_of, text_of};
ghost use Rattle.als_lookback.specs.declared.fault.Fault.TheVariants.{Memory, Stream};
ghost use Rattle.als_renew.specs.declared.fault.Fault.TheVariants.{Look as OfLook};
ghost use Rattle.als_renew.specs.FaultNames.{kind_of, trouble_of};

use als_fault::FaultKind;
use als_folder::Trouble;
use als_lookback::Fault as LookFault;
use als_record::{Fault as ShapeFault, TransId};
use std::alloc::AllocError;
use std::{fmt, io};

/// Why no log is begun. The numbers are common to all crates.
#[derive(Clone, Copy, Debug, PartialEq, Eq)]
pub enum Fault {
    /// The old log can't be read to its end, the output failed, or an allocation failed.
    Look(LookFault),
    /// A transaction of the old log is in doubt and can't be carried on: its number is that of a page's
    /// transaction, or 256 are in doubt. It has to be decided first.
    InDoubt {
        /// The transaction.
        trans: TransId,
    },
}

impl Fault {
    /// Which of the faults of all crates it is. A transaction in doubt is RecordHeld: it holds the
    /// keys that it wrote.
    pub fn kind(self) -> FaultKind
        ensures { result ≡ kind_of self }
    {
        match self {
            Fault::Look(fault) => fault.kind(),
            Fault::InDoubt { trans } => FaultKind::RecordHeld { by: trans.0 },
        }
    }

    /// What of the old log's folder is wrong. None: nothing is known to be.
    pub fn trouble(self) -> Option<Trouble>
        ensures { result ≡ trouble_of self }
    {
        match self {
            Fault::Look(fault) => fault.trouble(),
            Fault::InDoubt { trans: _ } => None,
        }
    }

    /// The fault's number.
    pub fn number(self) -> u32
        ensures { result ≡ number_of (kind_of self) }
    {
        self.kind().number()
    }

    /// The fault's name, as programs print it.
    pub fn name(self) -> &'static str
        ensures { result.now ≡ name_of (kind_of self) }
    {
        self.kind().name()
    }
}

impl fmt::Display for Fault {
    ghost output = { λ fault. Some (text_of (kind_of fault)) };

    fn fmt<W: fmt::Write>(&self, f: &mut fmt::Formatter<W>) -> fmt::Result {
        let kind = self.kind();
        write!(f, "{kind}")
    }
}

impl std::error::Error for Fault {}

impl From<LookFault> for Fault {
    ghost from_gives = { λ cause fault. fault ≡ OfLook cause };

    fn from(fault: LookFault) -> Fault {
        Fault::Look(fault)
    }
}

impl From<AllocError> for Fault {
    ghost from_gives = { λ _ fault. fault ≡ OfLook Memory };

    fn from(_e: AllocError) -> Fault {
        Fault::Look(LookFault::Memory)
    }
}

impl From<ShapeFault> for Fault {
    ghost from_gives = { λ _ fault. fault ≡ OfLook Memory };

    // A record that is spelled is refused for want of memory alone.
    fn from(_e: ShapeFault) -> Fault {
        Fault::Look(LookFault::Memory)
    }
}

impl From<io::Error> for Fault {
    ghost from_gives = { λ _ fault. (fault ≡ OfLook Memory) ⊎ (fault ≡ OfLook Stream) };

    fn from(e: io::Error) -> Fault {
        Fault::Look(LookFault::from(e))
    }
}
