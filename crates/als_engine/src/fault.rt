ghost use Rattle.std.specs.Prelude.{◌≡◌, Some};
ghost use Rattle.als_fault.specs.Kinds.{number_of, name_of, text_of};
ghost use Rattle.als_engine.specs.declared.fault.Fault.TheVariants.{Memory as OutOfMemory};
ghost use Rattle.als_engine.specs.Faults.{kind_of, from_record, from_cause, from_store, from_open};
ghost use Rattle.als_engine.specs.Faults.{from_epochs};

use als_epochs::Fault as EpochFault;
use als_fault::FaultKind;
use als_record::{Cause, Fault as RecordFault, Lsn, TransId};
use als_store::{Fault as StoreFault, OpenFault};
use std::alloc::{AllocError, AllocFailed};
use std::fmt;

/// Why an event is refused. The numbers are common to all crates.
#[derive(Clone, Copy, Debug, PartialEq, Eq)]
pub enum Fault {
    /// The log's header is damaged.
    BadHeader,
    /// A record's length is out of its type's range, or not what its fields make it.
    BadLength,
    /// There is no such type of record.
    BadType,
    /// A byte that must be zero is not.
    BadReserved,
    /// A record names another LSN than that of the place where it stands.
    WrongLsn,
    /// A page at or past the database's page count, or a slot above 14.
    BadKey,
    /// A value of more than 31 bytes.
    BadValue,
    /// PrevLSN is not the LSN of the transaction's last record.
    BadPrev,
    /// The transaction has ended, or is new and its TransID does not rise above the log's.
    OldTransaction,
    /// The transaction may not write such a record any more.
    WrongState,
    /// A compensation that does not go on at the record before the update that it undoes.
    WrongUndoNext,
    /// A compensation of anything but the newest surviving update.
    WrongCompensation,
    /// An update of a key that another transaction holds.
    RecordHeld {
        /// That transaction.
        by: TransId,
    },
    /// An update whose before image is not what its key has.
    BeforeImage,
    /// More than 256 transactions would be unended.
    TooManyTransactions,
    /// A checkpoint's record that does not fit those before it.
    BadCheckpoint,
    /// The standby was opened and is not ready yet.
    Recovering,
    /// The log was sealed, and takes no more records of its source.
    Sealed,
    /// The log is not acknowledged past the page_LSN of the page; or it is not synced to its end.
    LogBehind,
    /// A transaction is unended, a change waits for redo, or the log is not acknowledged to its
    /// end.
    NotDrained,
    /// A checkpoint is begun, the last publish is not synced, or a block of the checkpoint is not
    /// written and synced.
    CkptBusy,
    /// All frames are used, and none is clean and not lent.
    PoolFull,
    /// The page is lent.
    PageLent,
    /// The lease is not the one that is out for its page.
    Stranger,
    /// There is nothing for the event to do.
    NothingToDo,
    /// The log device has no room for the record and for the reserve behind it: what a takeover and
    /// the decisions of transactions in doubt would then append.
    LogFull,
    /// A device failed. Where it failed to write or to sync, the engine has stopped.
    Device,
    /// The engine has stopped: a write or a sync failed earlier.
    Stopped,
    /// An allocation failed.
    Memory,
    /// The block of this page holds no image of it that the event can take.
    BadPage {
        page: u32,
    },
    /// The control block or its checkpoint is none, the mark stands within a record, or the
    /// checkpoint is not that of the log.
    BadControl,
    /// Readers have no list of commits yet.
    Warming,
    /// As many changes are pending as the limit allows.
    Backlog,
    /// A number of the configuration is out of its range.
    BadConfig,
    /// The log was not sealed yet.
    NotSealed,
    /// There is no such slot, it has no lease to work on, or no room for one.
    BadSlot,
    /// The last lease number is used.
    NumbersSpent,
    /// The takeover has not ended.
    NotPrimary,
    /// The transaction is not in doubt.
    NotInDoubt,
    /// The log reaches past the seal with which the offered history goes on: the two logs parted
    /// there.
    Diverged {
        /// That seal.
        seal: Lsn,
    },
    /// The offered history does not go on from the own one.
    OtherEpoch {
        /// The epoch of the offered history.
        epoch: u32,
    },
    /// The history has room for no more seals.
    EpochsSpent,
}

impl Fault {
    /// Which of the faults of all crates it is.
    pub fn kind(self) -> FaultKind
        ensures { result ≡ kind_of self }
    {
        match self {
            Fault::BadHeader => FaultKind::BadHeader,
            Fault::BadLength => FaultKind::BadLength,
            Fault::BadType => FaultKind::BadType,
            Fault::BadReserved => FaultKind::BadReserved,
            Fault::WrongLsn => FaultKind::WrongLsn,
            Fault::BadKey => FaultKind::BadKey,
            Fault::BadValue => FaultKind::BadValue,
            Fault::BadPrev => FaultKind::BadPrev,
            Fault::OldTransaction => FaultKind::OldTransaction,
            Fault::WrongState => FaultKind::WrongState,
            Fault::WrongUndoNext => FaultKind::WrongUndoNext,
            Fault::WrongCompensation => FaultKind::WrongCompensation,
            Fault::RecordHeld { by } => FaultKind::RecordHeld { by: by.0 },
            Fault::BeforeImage => FaultKind::BeforeImage,
            Fault::TooManyTransactions => FaultKind::TooManyTransactions,
            Fault::BadCheckpoint => FaultKind::BadCheckpoint,
            Fault::Recovering => FaultKind::Recovering,
            Fault::Sealed => FaultKind::Sealed,
            Fault::LogBehind => FaultKind::LogBehind,
            Fault::NotDrained => FaultKind::NotDrained,
            Fault::CkptBusy => FaultKind::CkptBusy,
            Fault::PoolFull => FaultKind::PoolFull,
            Fault::PageLent => FaultKind::PageLent,
            Fault::Stranger => FaultKind::Stranger,
            Fault::NothingToDo => FaultKind::NothingToDo,
            Fault::LogFull => FaultKind::LogFull,
            Fault::Device => FaultKind::Device,
            Fault::Stopped => FaultKind::Stopped,
            Fault::Memory => FaultKind::Memory,
            Fault::BadPage { page } => FaultKind::BadPage { page },
            Fault::BadControl => FaultKind::BadControl,
            Fault::Warming => FaultKind::Warming,
            Fault::Backlog => FaultKind::Backlog,
            Fault::BadConfig => FaultKind::BadConfig,
            Fault::NotSealed => FaultKind::NotSealed,
            Fault::BadSlot => FaultKind::BadSlot,
            Fault::NumbersSpent => FaultKind::NumbersSpent,
            Fault::NotPrimary => FaultKind::NotPrimary,
            Fault::NotInDoubt => FaultKind::NotInDoubt,
            Fault::Diverged { seal } => FaultKind::Diverged { seal: seal.0 },
            Fault::OtherEpoch { epoch } => FaultKind::OtherEpoch { epoch },
            Fault::EpochsSpent => FaultKind::EpochsSpent,
        }
    }

    /// The fault's number.
    pub fn number(self) -> u32
        ensures { result ≡ number_of (kind_of self) }
    {
        self.kind().number()
    }

    /// The fault's name, as programs print it.
    pub fn name(self) -> &'static str
        ensures { result.now ≡ name_of (kind_of self) }
    {
        self.kind().name()
    }
}

impl fmt::Display for Fault {
    ghost output = { λ fault. Some (text_of (kind_of fault)) };

    fn fmt<W: fmt::Write>(&self, f: &mut fmt::Formatter<W>) -> fmt::Result {
        let kind = self.kind();
        write!(f, "{kind}")
    }
}

impl std::error::Error for Fault {}

impl From<RecordFault> for Fault {
    ghost from_gives = { λ f e. e ≡ from_record f };

    fn from(fault: RecordFault) -> Fault {
        match fault {
            RecordFault::BadHeader => Fault::BadHeader,
            RecordFault::BadLength => Fault::BadLength,
            RecordFault::BadType => Fault::BadType,
            RecordFault::BadReserved => Fault::BadReserved,
            RecordFault::WrongLsn => Fault::WrongLsn,
            RecordFault::BadKey => Fault::BadKey,
            RecordFault::BadValue => Fault::BadValue,
            RecordFault::Memory => Fault::Memory,
        }
    }
}

impl From<Cause> for Fault {
    ghost from_gives = { λ c e. e ≡ from_cause c };

    fn from(cause: Cause) -> Fault {
        match cause {
            Cause::BadPrev => Fault::BadPrev,
            Cause::OldTransaction => Fault::OldTransaction,
            Cause::WrongState => Fault::WrongState,
            Cause::WrongUndoNext => Fault::WrongUndoNext,
            Cause::WrongCompensation => Fault::WrongCompensation,
            Cause::RecordHeld { by } => Fault::RecordHeld { by },
            Cause::BeforeImage => Fault::BeforeImage,
            Cause::TooManyTransactions => Fault::TooManyTransactions,
            Cause::BadCheckpoint => Fault::BadCheckpoint,
        }
    }
}

impl From<StoreFault> for Fault {
    ghost from_gives = { λ f e. e ≡ from_store f };

    fn from(fault: StoreFault) -> Fault {
        match fault {
            StoreFault::Invalid(cause) => Fault::from(cause),
            StoreFault::LogBehind => Fault::LogBehind,
            StoreFault::CkptBusy => Fault::CkptBusy,
            StoreFault::PoolFull => Fault::PoolFull,
            StoreFault::PageLent => Fault::PageLent,
            StoreFault::NumbersSpent => Fault::NumbersSpent,
            StoreFault::NothingToDo => Fault::NothingToDo,
            StoreFault::LogFull => Fault::LogFull,
            StoreFault::Device => Fault::Device,
            StoreFault::Memory => Fault::Memory,
            StoreFault::BadPage { page } => Fault::BadPage { page },
        }
    }
}

impl From<EpochFault> for Fault {
    ghost from_gives = { λ f e. e ≡ from_epochs f };

    fn from(fault: EpochFault) -> Fault {
        match fault {
            EpochFault::OtherEpoch { epoch } => Fault::OtherEpoch { epoch },
            EpochFault::Diverged { seal } => Fault::Diverged { seal },
        }
    }
}

impl From<OpenFault> for Fault {
    ghost from_gives = { λ f e. e ≡ from_open f };

    fn from(fault: OpenFault) -> Fault {
        match fault {
            OpenFault::Shape(shape) => Fault::from(shape),
            OpenFault::Invalid(cause) => Fault::from(cause),
            OpenFault::BadControl => Fault::BadControl,
            OpenFault::LogFull => Fault::LogFull,
            OpenFault::Device => Fault::Device,
            OpenFault::Memory => Fault::Memory,
        }
    }
}

impl From<AllocError> for Fault {
    ghost from_gives = { λ _ e. e ≡ OutOfMemory };

    fn from(_e: AllocError) -> Fault {
        Fault::Memory
    }
}

impl<T: Drop> From<AllocFailed<T>> for Fault {
    ghost from_gives = { λ _ e. e ≡ OutOfMemory };

    fn from(_e: AllocFailed<T>) -> Fault {
        Fault::Memory
    }
}
