//! What a command does with a standby that is open: all of its redo, its recovery, and its records
//! as lines.
#![tactic(auto)]

// Receives the progress of a long redo.
mod progress;
// All that waits for redo.
mod draining;
// A standby back to where it was left.
mod recovering;
// The records of a database as lines.
mod database;

pub use database::listing;
pub use draining::{drain, drain_telling};
pub use progress::{Progress, Silent};
pub use recovering::{recover, recover_telling};
