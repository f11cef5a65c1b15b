ghost use Rattle.std.specs.Prelude.{◌≡◌, Some};
ghost use Rattle.als_fault.specs.Kinds.{number_of, name_of, text_of};
ghost use Rattle.als_ckpt.specs.declared.fault.Fault.TheVariants.{Device, Memory as OutOfMemory};
ghost use Rattle.als_ckpt.specs.FaultNames.{kind_of, of_codec};

use als_ckpt_codec::Fault as CodecFault;
use als_disk::DeviceError;
use als_fault::FaultKind;
use std::alloc::{AllocError, AllocFailed};
use std::fmt;

/// Why a call on a control block or a checkpoint is refused. The numbers are common to all crates.
#[derive(Clone, Copy, Debug, PartialEq, Eq)]
pub enum Fault {
    /// The device failed.
    Device,
    /// The block is no control block of a database with this many pages over a log device of this
    /// size, or the bytes are no checkpoint of it at this position.
    BadControl,
    /// An allocation failed.
    Memory,
    /// No checkpoint is begun, or each of its blocks is written.
    NothingToDo,
    /// A checkpoint is begun, the last publish is not synced, or a block is not written and synced.
    CkptBusy,
    /// The checkpoint's position is above the acknowledged LSN.
    LogBehind,
}

impl Fault {
    /// Which of the faults of all crates it is.
    pub fn kind(self) -> FaultKind
        ensures { result ≡ kind_of self }
    {
        match self {
            Fault::Device => FaultKind::Device,
            Fault::BadControl => FaultKind::BadControl,
            Fault::Memory => FaultKind::Memory,
            Fault::NothingToDo => FaultKind::NothingToDo,
            Fault::CkptBusy => FaultKind::CkptBusy,
            Fault::LogBehind => FaultKind::LogBehind,
        }
    }

    /// The fault's number.
    pub fn number(self) -> u32
        ensures { result ≡ number_of (kind_of self) }
    {
        self.kind().number()
    }

    /// The fault's name, as programs print it.
    pub fn name(self) -> &'static str
        ensures { result.now ≡ name_of (kind_of self) }
    {
        self.kind().name()
    }
}

impl fmt::Display for Fault {
    ghost output = { λ fault. Some (text_of (kind_of fault)) };

    fn fmt<W: fmt::Write>(&self, f: &mut fmt::Formatter<W>) -> fmt::Result {
        let kind = self.kind();
        write!(f, "{kind}")
    }
}

impl std::error::Error for Fault {}

impl From<DeviceError> for Fault {
    ghost from_gives = { λ _ e. e ≡ Device };

    fn from(_e: DeviceError) -> Fault {
        Fault::Device
    }
}

impl From<AllocError> for Fault {
    ghost from_gives = { λ _ e. e ≡ OutOfMemory };

    fn from(_e: AllocError) -> Fault {
        Fault::Memory
    }
}

impl<T: Drop> From<AllocFailed<T>> for Fault {
    ghost from_gives = { λ _ e. e ≡ OutOfMemory };

    fn from(_e: AllocFailed<T>) -> Fault {
        Fault::Memory
    }
}

impl From<CodecFault> for Fault {
    ghost from_gives = { λ fault e. e ≡ of_codec fault };

    fn from(fault: CodecFault) -> Fault {
        match fault {
            CodecFault::BadControl => Fault::BadControl,
            CodecFault::Memory => Fault::Memory,
        }
    }
}
