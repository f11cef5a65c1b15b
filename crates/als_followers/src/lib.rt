//! The followers of one live log: up to eight at once, each served by a thread of its own.
//!
//! ```text
//! accept thread --who asked--> desk --> thread --send_log--> follower
//!                                         | reads log.blk below the tail    | acknowledges
//! leader --raise--> tail -----------------'                                 v
//! leader <--wait_for-- quorum <---------------------------------- its seat there
//! ```
//!
//! 1. A log is read below its tail alone: what is there is durable, and does not change any more.
//! 2. A follower has a seat in the quorum from when it said the id of its folder, or else was admitted, until its
//!    session ends. While it has one, nobody else follows under that id.
//! 3. What a follower answers counts for the round in which the frame was sent: the tail's at the time. Answers come
//!    in the order of the frames.
//! 4. A slow or silent peer holds up nobody else: it has a thread of its own, or none.
//! 5. Each thread is joined by `close`.
#![tactic(auto)]

// A node's log, read from its file.
mod node_log;
// Whether the sessions of a log beat.
mod pulse;
// A log that is sent to one follower after another.
mod serves;
// In which rounds the frames were sent.
mod rounds;
// A follower's seat in the quorum.
mod seated;
// Remarks on followers.
mod notice;
// The addresses that were reported lately.
mod hung_up;
// The last notices, for who runs it.
mod notices;
// What all sessions have in common.
mod common;
// One session.
mod session;
// What each thread does.
mod work;
// The threads.
mod followers;

pub use als_callers::{Allowed, Block};
pub use als_quorum::{FolderId, Quorum, Row, Tail};
pub use followers::Followers;
pub use node_log::{NodeLog, NodeSource};
pub use notice::{Notice, What};
pub use pulse::{Always, Pulse};
pub use serves::Serves;
pub use session::Terms;
