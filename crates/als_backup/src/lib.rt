//! A backup of a node that runs or not, and a node out of a backup.
//!
//! ```text
//! a source --R--> its acknowledged end E
//!          --V--> has it the log of the file?        a file that is gone on with
//!          --Q--> frames --turn--> Text: judged --> the output, up to E
//!
//! a log file --look_over--> its pages, its end, its room --fill--> a folder
//! ```
//!
//! Rules:
//! 1. A backup is the text of a log. It ends where the source's log was acknowledged when it was asked.
//! 2. Each record is judged before a backup is said to be done. What is written is a front of the source's
//!    text, whatever ends it.
//! 3. Nothing is acknowledged: each frame is answered with the LSN of the first record. So a backup counts
//!    for no commit of a primary that waits for standbys.
//! 4. A file that is gone on with is appended to once the source has said that its log is the same up to
//!    there, and not before.
//! 5. A restored folder has its database only once all of the text is on its devices.
#![tactic(auto)]

// Why there is no backup, or no node of it.
mod fault;
// A record is passed over.
mod passing;
// The whole records of what has come.
mod judging;
// A log text that grows.
mod text;
// What of a frame is new.
mod frames;
// Frame after frame.
mod fetching;
// Whether a source has the log.
mod comparing;
// A session, from its question on.
mod session;
// A log text that is read.
mod reading;
// What is said of a backup.
mod said;
// A source at an address.
mod source;
// Backups of it.
mod backing_up;
// Backups of a folder.
mod folder_copy;
// An engine takes a text in.
mod filling;
// A folder out of a log text.
mod restoring;

pub use backing_up::{backup, resume};
pub use comparing::{Compared, compare};
pub use fault::Fault;
pub use fetching::fetch;
pub use filling::fill;
pub use folder_copy::{backup_folder, resume_folder};
pub use reading::{check_front, pour, recall};
pub use restoring::{Restored, Restoring, restore};
pub use said::Said;
pub use session::copy_session;
pub use source::Asked;
pub use text::Text;
