ghost use Rattle.std.specs.Prelude.{◌≡◌, Some};
ghost use Rattle.als_fault.specs.Kinds.{number_of, name_of, text_of};
ghost use Rattle.als_epochs.specs.FaultNames.{kind_of};

use als_fault::FaultKind;
use als_record::Lsn;
use std::fmt;

/// Why an offered history is refused. The numbers are common to all crates.
#[derive(Clone, Copy, Debug, PartialEq, Eq)]
pub enum Fault {
    /// The offered history does not go on from the own one.
    OtherEpoch {
        /// The epoch of the offered history.
        epoch: u32,
    },
    /// The log reaches past the seal with which the offered history goes on: the two logs parted
    /// there.
    Diverged {
        /// That seal.
        seal: Lsn,
    },
}

impl Fault {
    /// Which of the faults of all crates it is.
    pub fn kind(self) -> FaultKind
        ensures { result ≡ kind_of self }
    {
        match self {
            Fault::OtherEpoch { epoch } => FaultKind::OtherEpoch { epoch },
            Fault::Diverged { seal } => FaultKind::Diverged { seal: seal.0 },
        }
    }

    /// The fault's number.
    pub fn number(self) -> u32
        ensures { result ≡ number_of (kind_of self) }
    {
        self.kind().number()
    }

    /// The fault's name, as programs print it.
    pub fn name(self) -> &'static str
        ensures { result.now ≡ name_of (kind_of self) }
    {
        self.kind().name()
    }
}

impl fmt::Display for Fault {
    ghost output = { λ fault. Some (text_of (kind_of fault)) };

    fn fmt<W: fmt::Write>(&self, f: &mut fmt::Formatter<W>) -> fmt::Result {
        let kind = self.kind();
        write!(f, "{kind}")
    }
}

impl std::error::Error for Fault {}
