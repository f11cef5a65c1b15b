//! A log that grows, shipped for as long as followers come: a file (`als ship --follow`, `--keep`), or the
//! acknowledged log of a node's folder (`als ship --dir --keep`).
//!
//! ```text
//!     FILE --GrowingLog--> serve_growing, the first who asks
//!
//!     kept: FILE --LogFile---\
//!                             send_log in a thread of each follower --Outcome--> outbox --> who prints
//!           DIR --NodeFolder-/        at the end of a FILE that grows: its last byte again, now and then
//! ```
//!
//! 1. Kept, it serves up to eight at once. Threads print nothing: one thread takes what they have to say, and
//!    prints it a line at a time.
//! 2. That thread alone uses the file system by name: it looks whether the path still names the file, and opens
//!    the folder. Sessions read descriptors.
//! 3. The folder of a node is held by the first session, and free once the last one has ended.
#![tactic(auto)]

// Why the file of a log is no longer the one that it was.
mod strayed;
// A log file that may grow.
mod growing_log;
// A follower's question, read ahead.
mod question;
// Whether a shipper ends.
mod stop;
// What a thread has to say of a session.
mod outcome;
// The same, for the thread that prints it.
mod outbox;
// What a session reports of its follower beside what others hear.
mod noted;
// Whether a path still names a file.
mod naming;
// What the thread that prints does beside.
mod beside;
// A node's folder between those who want it and who opens it.
mod hold;
// A log file that several sessions send.
mod log_file;
// A node's folder whose log several sessions send.
mod node_folder;
// Up to eight sessions at once, and what is printed of them.
mod crowd;
// A shipper that goes on.
mod lasting;

pub use lasting::{Lasting, Sessions, ship_node_on, ship_on};
pub use strayed::Strayed;
