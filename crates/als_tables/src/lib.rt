//! What a checkpoint takes of a log as it is held: its rows of the transaction table, and counts.
#![tactic(auto)]

// The rows of the transaction table.
mod copies;
// Records and commits, counted.
mod commit_count;

pub use commit_count::CommitCount;
pub use copies::{fits_checkpoint, logged_rows};
