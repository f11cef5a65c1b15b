ghost use Rattle.std.specs.Prelude.{◌≡◌, Some};
ghost use Rattle.als_fault.specs.Kinds.{number_of, name_of, text_of};
ghost use Rattle.als_reopen.specs.declared.fault.Fault.TheVariants.{Device as DeviceFailed};
ghost use Rattle.als_reopen.specs.declared.fault.Fault.TheVariants.{Memory as OutOfMemory};
ghost use Rattle.als_reopen.specs.FaultNames.{kind_of, of_scan, of_control};

use als_ckpt::Fault as ControlFault;
use als_disk::DeviceError;
use als_fault::FaultKind;
use als_record::{Cause, Fault as ShapeFault};
use als_scan::Fault as ScanFault;
use std::alloc::{AllocError, AllocFailed};
use std::fmt;

/// Why devices are not taken up again. The numbers are common to all crates.
#[derive(Clone, Copy, Debug, PartialEq, Eq)]
pub enum Fault {
    /// The log's bytes are no record; `BadHeader`: its header is damaged, or it is that of another
    /// page count.
    Shape(ShapeFault),
    /// A record of the log may not follow those before it.
    Invalid(Cause),
    /// The control block or its checkpoint is none, the mark stands within a record, or the
    /// checkpoint is not that of the log.
    BadControl,
    /// The log device has no room for the log and for its reserve: what a takeover and the decisions
    /// of transactions in doubt would append.
    LogFull,
    /// A device failed.
    Device,
    /// An allocation failed.
    Memory,
}

impl Fault {
    /// Which of the faults of all crates it is.
    pub fn kind(self) -> FaultKind
        ensures { result ≡ kind_of self }
    {
        match self {
            Fault::Shape(fault) => fault.kind(),
            Fault::Invalid(cause) => cause.kind(),
            Fault::BadControl => FaultKind::BadControl,
            Fault::LogFull => FaultKind::LogFull,
            Fault::Device => FaultKind::Device,
            Fault::Memory => FaultKind::Memory,
        }
    }

    /// The fault's number.
    pub fn number(self) -> u32
        ensures { result ≡ number_of (kind_of self) }
    {
        self.kind().number()
    }

    /// The fault's name, as programs print it.
    pub fn name(self) -> &'static str
        ensures { result.now ≡ name_of (kind_of self) }
    {
        self.kind().name()
    }
}

impl fmt::Display for Fault {
    ghost output = { λ fault. Some (text_of (kind_of fault)) };

    fn fmt<W: fmt::Write>(&self, f: &mut fmt::Formatter<W>) -> fmt::Result {
        let kind = self.kind();
        write!(f, "{kind}")
    }
}

impl std::error::Error for Fault {}

impl From<DeviceError> for Fault {
    ghost from_gives = { λ _ e. e ≡ DeviceFailed };

    fn from(_e: DeviceError) -> Fault {
        Fault::Device
    }
}

impl From<AllocError> for Fault {
    ghost from_gives = { λ _ e. e ≡ OutOfMemory };

    fn from(_e: AllocError) -> Fault {
        Fault::Memory
    }
}

impl<T: Drop> From<AllocFailed<T>> for Fault {
    ghost from_gives = { λ _ e. e ≡ OutOfMemory };

    fn from(_e: AllocFailed<T>) -> Fault {
        Fault::Memory
    }
}

impl From<ScanFault> for Fault {
    ghost from_gives = { λ fault e. e ≡ of_scan fault };

    fn from(fault: ScanFault) -> Fault {
        match fault {
            ScanFault::Shape(shape) => Fault::Shape(shape),
            ScanFault::Invalid(cause) => Fault::Invalid(cause),
            ScanFault::BadControl => Fault::BadControl,
            ScanFault::Device => Fault::Device,
            ScanFault::Memory => Fault::Memory,
        }
    }
}

impl From<ControlFault> for Fault {
    ghost from_gives = { λ fault e. e ≡ of_control fault };

    fn from(fault: ControlFault) -> Fault {
        match fault {
            ControlFault::Device => Fault::Device,
            ControlFault::Memory => Fault::Memory,
            _ => Fault::BadControl,
        }
    }
}
