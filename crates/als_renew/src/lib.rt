//! What a log begins with that goes on from one which is nearly full: a transaction a page, which leaves
//! what the committed transactions of the old one left, and then what is in doubt in it.
//!
//! ```text
//! the old log --look_over--> the image of each key --a page after another--> the new log
//!                       |--> each transaction in doubt --prepared once more--^
//!                       `--> the greatest number ----------------------------'
//! ```
//!
//! Rules:
//! 1. The old log is read to its end, and only read. What readers see of the new log is what they see of
//!    the old one: what has neither committed nor prepared is left out.
//! 2. Page P is written by transaction P + 1: an update for each key that has a value, before which
//!    the key had nothing, the commit and the end. A page without a value has no transaction.
//! 3. Each transaction in doubt prepares once more under its own number, with what it wrote and did not
//!    undo. One with the number of a page's transaction is refused.
//! 4. The new log has a TransID that is not below the old log's greatest: an empty transaction of that
//!    number is its last, where no other one is. So a number that a coordinator knows of the old log is that
//!    of no transaction that begins in the new one. Where the last TransID is used, they begin anew.
//! 5. Memory holds the image of each key, what is in doubt, and the records of one transaction.
#![tactic(auto)]

// Why no log is begun.
mod fault;
// The records of one page.
mod page;
// The records of a transaction that only keeps its number.
mod number;
// How far a log is written.
mod reached;
// The records of a transaction in doubt.
mod doubt;
// Transactions in doubt that a new log carries on.
mod carrying;
// The new log.
mod beginning;
// What is in doubt in it, while it is.
mod keeping;
// What `als begin` does with a path.
mod command;

pub use beginning::begin_log;
pub use command::begin;
pub use fault::Fault;
pub use keeping::a_doubt_keeps_its_writes;
