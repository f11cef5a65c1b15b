//! A node's or a log file's past: the log up to an LSN, what the commits up to there left, where a
//! transaction committed, and a longer log device.
//!
//! ```text
//! new: the header was read --> take_next --> a record is behind the others
//!                                       |--> stopped: the end, or the next record ends above the LSN
//!                                       `--> refused: by the bytes, the LSN, the reader or the taker
//! ```
//!
//! Rules:
//! 1. A log is read once, from its first byte on, and each record is judged by those before it.
//!    Nothing is kept of a record but what a validator keeps of it.
//! 2. A look up to an LSN takes the longest front of the log that ends at or below it. What stands
//!    behind that LSN is not looked at, but for the record that the LSN lies within.
//! 3. What is refused has a name: the fault of the first record that is none or may not follow, the
//!    end of a text within a record, or an LSN where no record of the log can end.
//! 4. Of a folder what is acknowledged is its log, and of a file all of it.
//! 5. Nothing is written but the output, and by `grow` the log's device.
#![tactic(auto)]

// Why there is no answer.
mod fault;
// Up to where a log is looked at.
mod until;
// What takes records one after another.
mod taking;
// Bytes in, records of a valid log out.
mod judge;
// A log that is read from its beginning.
mod reading;
// The spellings of records.
mod spelled;
// The log up to an LSN, written to an output.
mod cutting;
// The images of all keys.
mod images;
// What the commits of a log left.
mod seen;
// A transaction in doubt, and what it wrote.
mod doubt;
// What a log leaves open.
mod standing;
// What the commits up to an LSN left.
mod looking;
// Where a transaction committed.
mod finding;
// The commits from an LSN on, counted.
mod past;
// The commits as lines.
mod listing;
// A log file or a folder, opened.
mod source;
// What the commands print of a source.
mod commands;
// A longer log device.
mod growing;

pub use commands::{commit_of, commits, cut, get, show, status};
pub use cutting::cut_log;
pub use doubt::Doubt;
pub use fault::Fault;
pub use finding::find_commit;
pub use growing::{BLOCKS_LIMIT, grow};
pub use judge::Judge;
pub use looking::{look_back, look_over};
pub use past::{CommitAt, NAMED_LIMIT, PastCommits, past_commits};
pub use seen::Seen;
pub use source::{Source, log_path, open};
pub use standing::Standing;
pub use taking::TakeRecord;
pub use until::Until;
