//! A writer of transactions of its own: a primary that feeds itself.
//!
//! asked and planned, nothing has changed -> fed as one piece -> in the log, whole
//!                                                            -> cut: `tidy` undoes it
//!
//! 1. All that can be refused is refused before anything is fed. The engine then refuses nothing that
//!    was planned, but for want of memory.
//! 2. A key that another open transaction holds is neither asked for nor set. So no ask sees anything
//!    that is not committed.
//! 3. The room of all records and of their reserve is asked once, before the first record.
//! 4. A transaction that prepares is in doubt and holds its keys, until its coordinator's decision
//!    commits it or rolls it back.
//! 5. A log that is owed records is tidied before anything is written to it. What is owed is the
//!    tail that a takeover would append.
#![tactic(auto)]

// A key and the image that it gets.
mod set;
// What is asked of the log.
mod ask;
// A whole transaction.
mod transaction;
// What is wrong with one, whatever the log has.
mod checking;
mod flaw;
// When each key changed.
mod changes;
// A transaction that is in the log, and why one is not.
mod refusal;
mod written;
// What its keys have, and the asks that do not hold.
mod asking;
mod failing;
mod unmet;
// How its records close.
mod closing;
// The room that it takes.
mod room;
// Its records as bytes.
mod spelling;
// All of it, before anything is fed.
mod planning;
// The transaction fed.
mod writing;
// The same, for a coordinator to decide.
mod preparing;
// One record fed.
mod next;
// What is owed after a stop.
mod tidying;
// A transaction in doubt decided.
mod deciding;
mod not_decided;
// A transaction to commit, one to prepare, or a decision.
mod work;

pub use ask::Ask;
pub use changes::Changes;
pub use checking::find_flaw;
pub use deciding::decide;
pub use failing::{FAILING_LIMIT, Failing};
pub use flaw::Flaw;
pub use not_decided::NotDecided;
pub use preparing::prepare;
pub use refusal::Refusal;
pub use set::Set;
pub use tidying::tidy;
pub use transaction::{LIMIT, Transaction};
pub use unmet::Unmet;
pub use work::Work;
pub use writing::write;
pub use written::Written;
