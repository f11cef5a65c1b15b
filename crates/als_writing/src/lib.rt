//! What a primary may append to a valid log: transactions of its own, whole or rolled back. The
//! laws say that each such record may follow the log, and what comes of them.
//!
//! 1. A transaction is its updates, its commit and its end, one after another. The before image of
//!    an update is what its key has by then, also behind an earlier update of the same transaction.
//! 2. A transaction may begin with a number above all of the log, where fewer than 256 transactions
//!    are unended and no other open transaction holds a key that it sets.
//! 3. Each law is the contract of a function that does nothing.
//! 4. A `Place` spells the records of one transaction, one behind another.
#![tactic(auto)]

// One record of a transaction, also where others write between its records.
mod moves;
// The room that they take.
mod room;
// A transaction that a coordinator decides.
mod prepared;
// What is owed after a stop among them.
mod stopped;
// The last write of a key.
mod unchanged;
// All records of a transaction, which follow one another.
mod laws;
// Where the next one stands, and its bytes.
mod place;

pub use laws::{rollback_follows, transaction_commits, transaction_follows};
pub use moves::{moves_follow, moves_leave_others};
pub use place::Place;
pub use prepared::{a_prepared_transaction_keeps_its_writes, prepared_fits, prepared_follows};
pub use room::{room_is_a_sum, transaction_fits};
pub use stopped::tail_ends_a_transaction;
pub use unchanged::{transaction_is_the_last_write, unchanged_key_is_seen_as_then};
