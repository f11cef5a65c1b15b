//! What an operator asks of files that nobody writes: the records of a log, whether a log or a
//! standby is sound, what a standby holds, and what a key has. It changes nothing.
#![tactic(auto)]

// Why there is no answer.
mod fault;
// A file's bytes as a device in memory.
mod copying;
// The log text of a file, or of a folder.
mod log_text;
// What the files say before a record is read, and which of them is wrong first.
mod heads;
// Why a record is refused.
mod telling;
// All records, counted.
mod counting;
// The records as lines.
mod dumping;
// A folder's standby, opened over a copy in memory.
mod restarting;
// What a folder's standby holds.
mod standing;
// What a key of it has.
mod getting;
// The pages of a folder against its log.
mod page_checking;
// Nothing is printed.
mod quiet;
// What is not sound.
mod unsound;
// What a restart meets before it reads a page.
mod judging;
// Whether all is sound.
mod verifying;

pub use als_scan::Wanted;
pub use dumping::dump;
pub use fault::Fault;
pub use getting::get;
pub use page_checking::check_pages;
pub use standing::{is_following, rank_of, status};
pub use verifying::{verify, verify_telling};
