ghost use Rattle.std.specs.Prelude.{◌≡◌, Some};
ghost use Rattle.als_fault.specs.Kinds.{number_of, name_of, text_of};
ghost use Rattle.als_ship.specs.declared.fault.Fault.TheVariants.{Memory, Refused};
ghost use Rattle.als_ship.specs.Faults.{kind_of, of_wire, of_epochs, IsOfStream};

use als_engine::Fault as EngineFault;
use als_epochs::Fault as EpochFault;
use als_fault::FaultKind;
use als_record::Lsn;
use als_wire::Fault as WireFault;
use std::alloc::AllocError;
use std::io::ErrorKind;
use std::{fmt, io};

/// Why a session ends early. The numbers are common to all crates.
#[derive(Clone, Copy, Debug, PartialEq, Eq)]
pub enum Fault {
    /// The header of the other end's log is damaged, or it is of another database.
    BadHeader,
    /// An allocation failed.
    Memory,
    /// A frame begins past the follower's position, or the follower holds more than there is.
    Gap,
    /// A frame is not the one that may come.
    BadFrame,
    /// The follower's log goes past the seal with which the source's history goes on: the two logs
    /// parted there.
    Diverged {
        /// That seal.
        seal: Lsn,
    },
    /// The stream ended where more was wanted.
    Cut,
    /// The stream or the source failed, or the session has too many frames.
    Stream,
    /// The source's history does not go on from the follower's, or a frame is of another epoch than
    /// the follower's.
    OtherEpoch {
        /// The source's epoch, or that of the frame.
        epoch: u32,
    },
    /// The standby refused an event.
    Refused(EngineFault),
}

impl Fault {
    /// Which of the faults of all crates it is.
    pub fn kind(self) -> FaultKind
        ensures { result ≡ kind_of self }
    {
        match self {
            Fault::BadHeader => FaultKind::BadHeader,
            Fault::Memory => FaultKind::Memory,
            Fault::Gap => FaultKind::Gap,
            Fault::BadFrame => FaultKind::BadFrame,
            Fault::Diverged { seal } => FaultKind::Diverged { seal: seal.0 },
            Fault::Cut => FaultKind::Cut,
            Fault::Stream => FaultKind::Stream,
            Fault::OtherEpoch { epoch } => FaultKind::OtherEpoch { epoch },
            Fault::Refused(fault) => fault.kind(),
        }
    }

    /// The fault's number.
    pub fn number(self) -> u32
        ensures { result ≡ number_of (kind_of self) }
    {
        self.kind().number()
    }

    /// The fault's name, as programs print it.
    pub fn name(self) -> &'static str
        ensures { result.now ≡ name_of (kind_of self) }
    {
        self.kind().name()
    }
}

impl fmt::Display for Fault {
    ghost output = { λ fault. Some (text_of (kind_of fault)) };

    fn fmt<W: fmt::Write>(&self, f: &mut fmt::Formatter<W>) -> fmt::Result {
        let kind = self.kind();
        write!(f, "{kind}")
    }
}

impl std::error::Error for Fault {}

impl From<WireFault> for Fault {
    ghost from_gives = { λ met fault. fault ≡ of_wire met };

    fn from(fault: WireFault) -> Fault {
        match fault {
            WireFault::BadHeader => Fault::BadHeader,
            WireFault::Memory => Fault::Memory,
            WireFault::BadFrame => Fault::BadFrame,
            WireFault::Cut => Fault::Cut,
            WireFault::Stream => Fault::Stream,
        }
    }
}

impl From<EpochFault> for Fault {
    ghost from_gives = { λ met fault. fault ≡ of_epochs met };

    fn from(fault: EpochFault) -> Fault {
        match fault {
            EpochFault::OtherEpoch { epoch } => Fault::OtherEpoch { epoch },
            EpochFault::Diverged { seal } => Fault::Diverged { seal },
        }
    }
}

impl From<io::Error> for Fault {
    ghost from_gives = { λ _ fault. IsOfStream fault };

    fn from(e: io::Error) -> Fault {
        if e.kind() == ErrorKind::UnexpectedEof {
            Fault::Cut
        } else {
            Fault::Stream
        }
    }
}

impl From<AllocError> for Fault {
    ghost from_gives = { λ _ fault. fault ≡ Memory };

    fn from(_e: AllocError) -> Fault {
        Fault::Memory
    }
}

impl From<EngineFault> for Fault {
    ghost from_gives = { λ refused fault. fault ≡ Refused refused };

    fn from(fault: EngineFault) -> Fault {
        Fault::Refused(fault)
    }
}
