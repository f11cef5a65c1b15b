ghost use Rattle.std.specs.Prelude.{◌≡◌, Some};
ghost use Rattle.als_fault.specs.Kinds.{number_of, name_of, text_of};
ghost use Rattle.als_pool.specs.declared.fault.Fault.TheVariants.{Memory as OutOfMemory};
ghost use Rattle.als_pool.specs.FaultNames.{kind_of, of_frames};

use als_fault::FaultKind;
use std::alloc::{AllocError, AllocFailed};
use std::fmt;

/// Why a call is refused. The numbers are common to all crates.
#[derive(Clone, Copy, Debug, PartialEq, Eq)]
pub enum Fault {
    /// The page_LSN of the page is not below the acknowledged LSN.
    LogBehind,
    /// All frames are used, and none is free.
    PoolFull,
    /// The page is lent.
    PageLent,
    /// There is nothing for the call to do.
    NothingToDo,
    /// The device failed.
    Device,
    /// An allocation failed.
    Memory,
    /// The block of this page holds no image of it that the call can take.
    BadPage { page: u32 },
    /// All numbers of leases are given.
    NumbersSpent,
}

impl Fault {
    /// Which of the faults of all crates it is.
    pub fn kind(self) -> FaultKind
        ensures { result ≡ kind_of self }
    {
        match self {
            Fault::LogBehind => FaultKind::LogBehind,
            Fault::PoolFull => FaultKind::PoolFull,
            Fault::PageLent => FaultKind::PageLent,
            Fault::NothingToDo => FaultKind::NothingToDo,
            Fault::Device => FaultKind::Device,
            Fault::Memory => FaultKind::Memory,
            Fault::BadPage { page } => FaultKind::BadPage { page },
            Fault::NumbersSpent => FaultKind::NumbersSpent,
        }
    }

    /// The fault's number.
    pub fn number(self) -> u32
        ensures { result ≡ number_of (kind_of self) }
    {
        self.kind().number()
    }

    /// The fault's name, as programs print it.
    pub fn name(self) -> &'static str
        ensures { result.now ≡ name_of (kind_of self) }
    {
        self.kind().name()
    }
}

impl fmt::Display for Fault {
    ghost output = { λ fault. Some (text_of (kind_of fault)) };

    fn fmt<W: fmt::Write>(&self, f: &mut fmt::Formatter<W>) -> fmt::Result {
        let kind = self.kind();
        write!(f, "{kind}")
    }
}

impl std::error::Error for Fault {}

impl From<als_frames::Fault> for Fault {
    ghost from_gives = { λ e fault. fault ≡ of_frames e };

    fn from(e: als_frames::Fault) -> Fault {
        match e {
            als_frames::Fault::PoolFull => Fault::PoolFull,
            als_frames::Fault::NothingToDo => Fault::NothingToDo,
            als_frames::Fault::Device => Fault::Device,
            als_frames::Fault::Memory => Fault::Memory,
            als_frames::Fault::BadPage { page } => Fault::BadPage { page },
        }
    }
}

impl From<AllocError> for Fault {
    ghost from_gives = { λ _ e. e ≡ OutOfMemory };

    fn from(_e: AllocError) -> Fault {
        Fault::Memory
    }
}

impl<T: Drop> From<AllocFailed<T>> for Fault {
    ghost from_gives = { λ _ e. e ≡ OutOfMemory };

    fn from(_e: AllocFailed<T>) -> Fault {
        Fault::Memory
    }
}
