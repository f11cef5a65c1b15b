ghost use Rattle.std.specs.Prelude.{◌≡◌, Some};
ghost use Rattle.als_fault.specs.Kinds.{number_of, name_of, text_of};
ghost use Rattle.als_record.specs.CauseNames.{kind_of_cause};

use crate::trans_id::TransId;
use als_fault::FaultKind;
use std::fmt;

/// Why a record may not follow a valid log. Where several causes stand the least number is the one
/// given.
#[derive(Clone, Copy, Debug, PartialEq, Eq)]
pub enum Cause {
    /// PrevLSN is not the transaction's LastLSN (not 0, for its first record).
    BadPrev,
    /// The transaction has ended, or is new and not greater than every TransID in the log.
    OldTransaction,
    /// A committed transaction may only end; one that rolls back may only compensate and end; one
    /// that is not committed may not end while an update of it survives.
    WrongState,
    /// A compensation whose UndoNxtLSN is not the PrevLSN of the update that it undoes.
    WrongUndoNext,
    /// A compensation that does not undo the last surviving update of its transaction.
    WrongCompensation,
    /// An update of a key at which another transaction, neither committed nor ended, has a
    /// surviving update.
    RecordHeld {
        /// That transaction.
        by: TransId,
    },
    /// An update whose before image is not what the key has.
    BeforeImage,
    /// More than 256 transactions would be unended.
    TooManyTransactions,
    /// A checkpoint record that names a transaction, or that does not fit the checkpoint records
    /// before it.
    BadCheckpoint,
}

impl Cause {
    /// Which of the faults of all crates it is.
    pub fn kind(self) -> FaultKind
        ensures { result ≡ kind_of_cause self }
    {
        match self {
            Cause::BadPrev => FaultKind::BadPrev,
            Cause::OldTransaction => FaultKind::OldTransaction,
            Cause::WrongState => FaultKind::WrongState,
            Cause::WrongUndoNext => FaultKind::WrongUndoNext,
            Cause::WrongCompensation => FaultKind::WrongCompensation,
            Cause::RecordHeld { by } => FaultKind::RecordHeld { by: by.0 },
            Cause::BeforeImage => FaultKind::BeforeImage,
            Cause::TooManyTransactions => FaultKind::TooManyTransactions,
            Cause::BadCheckpoint => FaultKind::BadCheckpoint,
        }
    }

    /// The fault's number.
    pub fn number(self) -> u32
        ensures { result ≡ number_of (kind_of_cause self) }
    {
        self.kind().number()
    }

    /// The fault's name, as programs print it.
    pub fn name(self) -> &'static str
        ensures { result.now ≡ name_of (kind_of_cause self) }
    {
        self.kind().name()
    }
}

impl fmt::Display for Cause {
    ghost output = { λ fault. Some (text_of (kind_of_cause fault)) };

    fn fmt<W: fmt::Write>(&self, f: &mut fmt::Formatter<W>) -> fmt::Result {
        let kind = self.kind();
        write!(f, "{kind}")
    }
}
