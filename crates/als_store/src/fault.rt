ghost use Rattle.std.specs.Prelude.{◌≡◌, Some};
ghost use Rattle.als_fault.specs.Kinds.{number_of, name_of, text_of};
ghost use Rattle.als_store.specs.declared.fault.Fault.TheVariants.{Memory as OutOfMemory};
ghost use Rattle.als_store.specs.Faults.{kind_of, of_pool};

use als_fault::FaultKind;
use als_record::Cause;
use std::alloc::{AllocError, AllocFailed};
use std::fmt;

/// Why an event is refused. The numbers are common to all crates.
#[derive(Clone, Copy, Debug, PartialEq, Eq)]
pub enum Fault {
    /// The record may not follow the log.
    Invalid(Cause),
    /// The log is not acknowledged past the page_LSN of the page.
    LogBehind,
    /// All frames are used, and none is free.
    PoolFull,
    /// A worker has the page.
    PageLent,
    /// There is nothing for the event to do.
    NothingToDo,
    /// The log device has no room for the record and for the reserve of the log with it.
    LogFull,
    /// A checkpoint is on its way, or its publishing is not synced.
    CkptBusy,
    /// A device failed.
    Device,
    /// An allocation failed.
    Memory,
    /// The block of this page holds no image of it that the event can take.
    BadPage { page: u32 },
    /// No lease number is left.
    NumbersSpent,
}

impl Fault {
    /// Which of the faults of all crates it is.
    pub fn kind(self) -> FaultKind
        ensures { result ≡ kind_of self }
    {
        match self {
            Fault::Invalid(cause) => cause.kind(),
            Fault::LogBehind => FaultKind::LogBehind,
            Fault::PoolFull => FaultKind::PoolFull,
            Fault::PageLent => FaultKind::PageLent,
            Fault::NothingToDo => FaultKind::NothingToDo,
            Fault::LogFull => FaultKind::LogFull,
            Fault::CkptBusy => FaultKind::CkptBusy,
            Fault::Device => FaultKind::Device,
            Fault::Memory => FaultKind::Memory,
            Fault::BadPage { page } => FaultKind::BadPage { page },
            Fault::NumbersSpent => FaultKind::NumbersSpent,
        }
    }

    /// The fault's number.
    pub fn number(self) -> u32
        ensures { result ≡ number_of (kind_of self) }
    {
        self.kind().number()
    }

    /// The fault's name, as programs print it.
    pub fn name(self) -> &'static str
        ensures { result.now ≡ name_of (kind_of self) }
    {
        self.kind().name()
    }
}

impl fmt::Display for Fault {
    ghost output = { λ fault. Some (text_of (kind_of fault)) };

    fn fmt<W: fmt::Write>(&self, f: &mut fmt::Formatter<W>) -> fmt::Result {
        let kind = self.kind();
        write!(f, "{kind}")
    }
}

impl std::error::Error for Fault {}

impl From<als_pool::Fault> for Fault {
    ghost from_gives = { λ e fault. fault ≡ of_pool e };

    fn from(e: als_pool::Fault) -> Fault {
        match e {
            als_pool::Fault::LogBehind => Fault::LogBehind,
            als_pool::Fault::PoolFull => Fault::PoolFull,
            als_pool::Fault::PageLent => Fault::PageLent,
            als_pool::Fault::NothingToDo => Fault::NothingToDo,
            als_pool::Fault::Device => Fault::Device,
            als_pool::Fault::Memory => Fault::Memory,
            als_pool::Fault::BadPage { page } => Fault::BadPage { page },
            als_pool::Fault::NumbersSpent => Fault::NumbersSpent,
        }
    }
}

impl From<AllocError> for Fault {
    ghost from_gives = { λ _ e. e ≡ OutOfMemory };

    fn from(_e: AllocError) -> Fault {
        Fault::Memory
    }
}

impl<T: Drop> From<AllocFailed<T>> for Fault {
    ghost from_gives = { λ _ e. e ≡ OutOfMemory };

    fn from(_e: AllocFailed<T>) -> Fault {
        Fault::Memory
    }
}
