//! The committed transactions of a log, and the queue in which they wait for the readers.
#![tactic(auto)]

// A committed transaction and what it writes.
mod commit;
// The commit that a record makes.
mod committing;
// Writes that are gathered for a commit.
mod gathered_writes;
// The key of a write, and how long its value is.
mod head;
// What holds of the commits of every log.
mod laws;
// The writes of a commit as they are kept.
mod packed_writes;
// Writes that several commits share.
mod shared_writes;
// The queue of commits.
mod waiting;
// A key and the image that it gets.
mod write;
// What a commit writes.
mod writes;
// Writes that are read one after another.
mod writes_left;

pub use commit::Commit;
pub use gathered_writes::GatheredWrites;
pub use head::Head;
pub use laws::{all_commits_end, commits_are_few, commits_have_fronts, counts_stay};
pub use waiting::Waiting;
pub use write::Write;
pub use writes::Writes;
pub use writes_left::WritesLeft;
