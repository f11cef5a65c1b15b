ghost use Rattle.std.specs.Prelude.{◌≡◌, Some};
ghost use Rattle.als_fault.specs.Kinds.{number_of, name_of, text_of};
ghost use Rattle.als_scan.specs.declared.fault.Fault.TheVariants.{Device as DeviceFailed};
ghost use Rattle.als_scan.specs.declared.fault.Fault.TheVariants.{Memory as OutOfMemory};
ghost use Rattle.als_scan.specs.FaultNames.{kind_of, of_shape, of_judgement, of_log};

use als_disk::DeviceError;
use als_fault::FaultKind;
use als_log::Fault as LogFault;
use als_record::{Cause, Fault as ShapeFault};
use als_validator::Fault as Judgement;
use std::alloc::{AllocError, AllocFailed};
use std::fmt;

/// Why no record is read from a device. The numbers are common to all crates.
#[derive(Clone, Copy, Debug, PartialEq, Eq)]
pub enum Fault {
    /// The bytes are no record; `BadHeader`: the log's header is damaged, or it is that of another
    /// page count.
    Shape(ShapeFault),
    /// The record may not follow those before it.
    Invalid(Cause),
    /// The mark stands within a record.
    BadControl,
    /// The device failed.
    Device,
    /// An allocation failed.
    Memory,
}

impl Fault {
    /// Which of the faults of all crates it is.
    pub fn kind(self) -> FaultKind
        ensures { result ≡ kind_of self }
    {
        match self {
            Fault::Shape(fault) => fault.kind(),
            Fault::Invalid(cause) => cause.kind(),
            Fault::BadControl => FaultKind::BadControl,
            Fault::Device => FaultKind::Device,
            Fault::Memory => FaultKind::Memory,
        }
    }

    /// The fault's number.
    pub fn number(self) -> u32
        ensures { result ≡ number_of (kind_of self) }
    {
        self.kind().number()
    }

    /// The fault's name, as programs print it.
    pub fn name(self) -> &'static str
        ensures { result.now ≡ name_of (kind_of self) }
    {
        self.kind().name()
    }
}

impl fmt::Display for Fault {
    ghost output = { λ fault. Some (text_of (kind_of fault)) };

    fn fmt<W: fmt::Write>(&self, f: &mut fmt::Formatter<W>) -> fmt::Result {
        let kind = self.kind();
        write!(f, "{kind}")
    }
}

impl std::error::Error for Fault {}

impl From<DeviceError> for Fault {
    ghost from_gives = { λ _ e. e ≡ DeviceFailed };

    fn from(_e: DeviceError) -> Fault {
        Fault::Device
    }
}

impl From<AllocError> for Fault {
    ghost from_gives = { λ _ e. e ≡ OutOfMemory };

    fn from(_e: AllocError) -> Fault {
        Fault::Memory
    }
}

impl<T: Drop> From<AllocFailed<T>> for Fault {
    ghost from_gives = { λ _ e. e ≡ OutOfMemory };

    fn from(_e: AllocFailed<T>) -> Fault {
        Fault::Memory
    }
}

impl From<ShapeFault> for Fault {
    ghost from_gives = { λ shape e. e ≡ of_shape shape };

    fn from(shape: ShapeFault) -> Fault {
        match shape {
            ShapeFault::Memory => Fault::Memory,
            _ => Fault::Shape(shape),
        }
    }
}

impl From<Judgement> for Fault {
    ghost from_gives = { λ judgement e. e ≡ of_judgement judgement };

    fn from(judgement: Judgement) -> Fault {
        match judgement {
            Judgement::Invalid(cause) => Fault::Invalid(cause),
            Judgement::Memory => Fault::Memory,
        }
    }
}

impl From<LogFault> for Fault {
    ghost from_gives = { λ logged e. e ≡ of_log logged };

    fn from(logged: LogFault) -> Fault {
        match logged {
            LogFault::Memory => Fault::Memory,
            _ => Fault::Device,
        }
    }
}
