ghost use Rattle.std.specs.Prelude.{◌≡◌, Some};
ghost use Rattle.als_fault.specs.Kinds.{number_of, name_of, carried_of, text_of};

use std::fmt;

/// Each way in which a call is refused: the one list of the numbers and names that all crates and
/// programs share. The fault of a crate says which of them it is.
#[derive(Clone, Copy, Debug, PartialEq, Eq)]
pub enum FaultKind {
    /// The header of a log or of a session is damaged, or it is of another database.
    BadHeader,
    /// A record's length is out of its type's range, or not what its fields make it.
    BadLength,
    /// There is no such type of record.
    BadType,
    /// A byte that must be zero is not.
    BadReserved,
    /// A record names another LSN than that of the place where it stands.
    WrongLsn,
    /// A page at or past the database's page count, or a slot above 14.
    BadKey,
    /// A value of more than 31 bytes.
    BadValue,
    /// PrevLSN is not the LSN of the transaction's last record.
    BadPrev,
    /// The transaction has ended, or is new and its TransID does not rise above the log's.
    OldTransaction,
    /// The transaction may not write such a record any more.
    WrongState,
    /// A compensation that does not go on at the record before the update that it undoes.
    WrongUndoNext,
    /// A compensation of anything but the newest surviving update.
    WrongCompensation,
    /// An update of a key that another transaction holds.
    RecordHeld {
        /// That transaction.
        by: u32,
    },
    /// An update whose before image is not what its key has.
    BeforeImage,
    /// More than 256 transactions would be unended.
    TooManyTransactions,
    /// A checkpoint's record that does not fit those before it.
    BadCheckpoint,
    /// The standby was opened and is not ready yet.
    Recovering,
    /// A takeover has begun: no more log is taken.
    Sealed,
    /// The log is not stable as far as the call needs.
    LogBehind,
    /// Changes wait for redo, or a lease is out.
    NotDrained,
    /// Every frame is lent or has changes that are not on its device.
    PoolFull,
    /// A worker has the page.
    PageLent,
    /// The lease is not the one that is out for its page.
    Stranger,
    /// There is nothing for the call to do.
    NothingToDo,
    /// A checkpoint is under way, or the last one is not synced.
    CkptBusy,
    /// The log device has no room for the record and for what a takeover would then append.
    LogFull,
    /// A device failed.
    Device,
    /// The standby has stopped: a write or a sync failed earlier.
    Stopped,
    /// An allocation failed.
    Memory,
    /// A block is not that of its page.
    BadPage {
        /// The page.
        page: u32,
    },
    /// The control device holds no control block, or a checkpoint that does not fit the log.
    BadControl,
    /// Readers have no list of commits yet.
    Warming,
    /// As many changes are pending as the limit allows.
    Backlog,
    /// A number of the configuration is out of its range.
    BadConfig,
    /// No takeover has begun.
    NotSealed,
    /// A slot does not exist, is empty, or is full.
    BadSlot,
    /// A frame begins past the follower's position.
    Gap,
    /// A frame is not one of those that may come.
    BadFrame,
    /// The held log reaches past the seal at which another node's history goes on.
    Diverged {
        /// That seal.
        seal: u64,
    },
    /// The input ended where more was wanted.
    Cut,
    /// A stream or a file failed.
    Stream,
    /// No lease number is left.
    NumbersSpent,
    /// The standby is no primary: it has not finished a takeover.
    NotPrimary,
    /// The transaction is not in doubt.
    NotInDoubt,
    /// The history of another node does not go on from the own one.
    OtherEpoch {
        /// The epoch of that node.
        epoch: u32,
    },
    /// The history has room for no more seals.
    EpochsSpent,
    /// The held log and that of another node part where both have bytes.
    OtherLog,
}

impl FaultKind {
    /// The fault's number.
    pub fn number(self) -> u32
        ensures { result ≡ number_of self }
    {
        match self {
            FaultKind::BadHeader => 1,
            FaultKind::BadLength => 2,
            FaultKind::BadType => 3,
            FaultKind::BadReserved => 4,
            FaultKind::WrongLsn => 5,
            FaultKind::BadKey => 6,
            FaultKind::BadValue => 7,
            FaultKind::BadPrev => 8,
            FaultKind::OldTransaction => 9,
            FaultKind::WrongState => 10,
            FaultKind::WrongUndoNext => 11,
            FaultKind::WrongCompensation => 12,
            FaultKind::RecordHeld { by: _ } => 13,
            FaultKind::BeforeImage => 14,
            FaultKind::TooManyTransactions => 15,
            FaultKind::BadCheckpoint => 16,
            FaultKind::Recovering => 20,
            FaultKind::Sealed => 21,
            FaultKind::LogBehind => 22,
            FaultKind::NotDrained => 23,
            FaultKind::PoolFull => 24,
            FaultKind::PageLent => 25,
            FaultKind::Stranger => 26,
            FaultKind::NothingToDo => 27,
            FaultKind::CkptBusy => 28,
            FaultKind::LogFull => 29,
            FaultKind::Device => 30,
            FaultKind::Stopped => 31,
            FaultKind::Memory => 32,
            FaultKind::BadPage { page: _ } => 33,
            FaultKind::BadControl => 34,
            FaultKind::Warming => 35,
            FaultKind::Backlog => 36,
            FaultKind::BadConfig => 37,
            FaultKind::NotSealed => 38,
            FaultKind::BadSlot => 39,
            FaultKind::Gap => 40,
            FaultKind::BadFrame => 41,
            FaultKind::Diverged { seal: _ } => 42,
            FaultKind::Cut => 43,
            FaultKind::Stream => 44,
            FaultKind::NumbersSpent => 45,
            FaultKind::NotPrimary => 46,
            FaultKind::NotInDoubt => 47,
            FaultKind::OtherEpoch { epoch: _ } => 48,
            FaultKind::EpochsSpent => 49,
            FaultKind::OtherLog => 50,
        }
    }

    /// The fault's name, as programs print it.
    pub fn name(self) -> &'static str
        ensures { result.now ≡ name_of self }
    {
        match self {
            FaultKind::BadHeader => "BadHeader",
            FaultKind::BadLength => "BadLength",
            FaultKind::BadType => "BadType",
            FaultKind::BadReserved => "BadReserved",
            FaultKind::WrongLsn => "WrongLsn",
            FaultKind::BadKey => "BadKey",
            FaultKind::BadValue => "BadValue",
            FaultKind::BadPrev => "BadPrev",
            FaultKind::OldTransaction => "OldTransaction",
            FaultKind::WrongState => "WrongState",
            FaultKind::WrongUndoNext => "WrongUndoNext",
            FaultKind::WrongCompensation => "WrongCompensation",
            FaultKind::RecordHeld { by: _ } => "RecordHeld",
            FaultKind::BeforeImage => "BeforeImage",
            FaultKind::TooManyTransactions => "TooManyTransactions",
            FaultKind::BadCheckpoint => "BadCheckpoint",
            FaultKind::Recovering => "Recovering",
            FaultKind::Sealed => "Sealed",
            FaultKind::LogBehind => "LogBehind",
            FaultKind::NotDrained => "NotDrained",
            FaultKind::PoolFull => "PoolFull",
            FaultKind::PageLent => "PageLent",
            FaultKind::Stranger => "Stranger",
            FaultKind::NothingToDo => "NothingToDo",
            FaultKind::CkptBusy => "CkptBusy",
            FaultKind::LogFull => "LogFull",
            FaultKind::Device => "Device",
            FaultKind::Stopped => "Stopped",
            FaultKind::Memory => "Memory",
            FaultKind::BadPage { page: _ } => "BadPage",
            FaultKind::BadControl => "BadControl",
            FaultKind::Warming => "Warming",
            FaultKind::Backlog => "Backlog",
            FaultKind::BadConfig => "BadConfig",
            FaultKind::NotSealed => "NotSealed",
            FaultKind::BadSlot => "BadSlot",
            FaultKind::Gap => "Gap",
            FaultKind::BadFrame => "BadFrame",
            FaultKind::Diverged { seal: _ } => "Diverged",
            FaultKind::Cut => "Cut",
            FaultKind::Stream => "Stream",
            FaultKind::NumbersSpent => "NumbersSpent",
            FaultKind::NotPrimary => "NotPrimary",
            FaultKind::NotInDoubt => "NotInDoubt",
            FaultKind::OtherEpoch { epoch: _ } => "OtherEpoch",
            FaultKind::EpochsSpent => "EpochsSpent",
            FaultKind::OtherLog => "OtherLog",
        }
    }

    /// The number that the fault carries: a TransID, a page, a seal or an epoch.
    pub fn carried(self) -> Option<u64>
        ensures { result ≡ carried_of self }
    {
        match self {
            FaultKind::RecordHeld { by } => Some(u64::from(by)),
            FaultKind::BadPage { page } => Some(u64::from(page)),
            FaultKind::Diverged { seal } => Some(seal),
            FaultKind::OtherEpoch { epoch } => Some(u64::from(epoch)),
            _ => None,
        }
    }
}

impl fmt::Display for FaultKind {
    /// Its number, its name, and the number that it carries, if any.
    ghost output = { λ kind. Some (text_of kind) };

    fn fmt<W: fmt::Write>(&self, f: &mut fmt::Formatter<W>) -> fmt::Result {
        let number = self.number();
        let name = self.name();
        match self.carried() {
            None => write!(f, "{number} {name}"),
            Some(carried) => write!(f, "{number} {name} {carried}"),
        }
    }
}
