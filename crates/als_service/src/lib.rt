//! The standby of a folder that follows for ever and answers reads over HTTP.
//!
//! ```text
//!     primary --session, and again--> follow_sessions --follow_beside--> engine --view--> readers
//!                                          |                                               |
//!                                        Board  <---------- /status, /health ----------  threads <-- HTTP
//! ```
//!
//! A standby that listens has followers of its own: each sync of its control block raises the tail below which
//! their sessions read its log.
#![tactic(auto)]

// What its events share with the sessions of its own followers.
mod cascade;
// Events whose statuses are stored on a board.
mod reporting;
// A stream that tells a board when something came.
mod heard;
// What is answered to a primary.
mod answered;
// What of a session is a sign of its primary.
mod signs;
// How long is waited before a primary is asked again.
mod pause;
// Receives why a standby waits.
mod outages;
// Whether the files of the folder still have their names, as bytes come.
mod named;
// What was reported of a primary that is waited for.
mod notices;
// Which ends of a session end all.
mod ending;
// Which sessions there were, for clauses alone.
mod met;
// What a primary was asked and answered, for clauses alone.
mod inquiries;
// What is seen of the held log.
mod standing;
// How long an answer may take.
mod patience;
// What a primary is asked about the held log.
mod comparing;
// What it is asked about how that begins.
mod front;
// The connections to a primary, one after another.
mod primaries;
// The next session.
mod next_session;
// One session after another.
mod keeping;
// A thread for each reader.
mod seats;
// What a standby is asked for.
mod service;
// Who follows it, for its board.
mod onlookers;
// Whether its own primary sends to it.
mod sent_to;
// The sessions of its own followers.
mod shipping;
// What a primary has to say before a folder is opened.
mod leading;
// What answers before a folder is opened.
mod waiting_room;
// The folder of a standby, held and opened once.
mod holding_on;
// The standby of a folder.
mod standing_by;
// What is true of a value that is read over HTTP.
mod laws;

pub use cascade::Cascade;
pub use keeping::{Kept, Pace, follow_sessions};
pub use laws::replies_are_of_published_commits;
pub use met::Met;
pub use outages::Outages;
pub use primaries::Primaries;
pub use reporting::{BoardReporter, Reported};
pub use service::Service;
pub use standing_by::standby;
