ghost use Rattle.std.specs.Prelude.{◌≡◌};
ghost use Rattle.als_writer.specs.Refusing.{fault_of};

use crate::failing::Failing;
use crate::flaw::Flaw;
use als_engine::Fault;
use als_record::{Key, TransId};

/// Why a transaction is not written.
#[derive(Clone, Copy)]
pub enum Refusal {
    /// It can't be written whatever the log has.
    Invalid(Flaw),
    /// The engine takes nothing now.
    State(Fault),
    /// The log is owed records, or a part of a record waits: `tidy` comes first.
    Untidy,
    /// Another open transaction holds a key that is asked for or set.
    Held { key: Key, by: TransId },
    /// Asks do not hold: the first eight of them, each with what its key has now.
    NotAsAsked { failing: Failing },
    /// The last TransID is used.
    NumbersSpent,
    /// 256 transactions are unended.
    TooMany,
    /// The log device has no room for its records and their reserve.
    LogFull,
    /// An allocation failed. Where records are owed some of its updates are in the log, and `tidy`
    /// undoes them.
    Memory { owed: bool },
    /// The engine refused what was planned: never where nobody else makes events.
    Unplanned(Fault),
}

impl Refusal {
    /// The fault by which programs print it, where it has a number.
    pub fn fault(&self) -> Option<Fault>
        ensures { result ≡ fault_of self.now }
    {
        match *self {
            Refusal::Invalid(_) => None,
            Refusal::State(fault) => Some(fault),
            Refusal::Untidy => None,
            Refusal::Held { by, .. } => Some(Fault::RecordHeld { by }),
            Refusal::NotAsAsked { .. } => None,
            Refusal::NumbersSpent => Some(Fault::NumbersSpent),
            Refusal::TooMany => Some(Fault::TooManyTransactions),
            Refusal::LogFull => Some(Fault::LogFull),
            Refusal::Memory { .. } => Some(Fault::Memory),
            Refusal::Unplanned(fault) => Some(fault),
        }
    }
}
