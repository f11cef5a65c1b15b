//! A node that is taken back to an LSN of its own log, so that it follows a node whose history goes on
//! from there.
//!
//! ```text
//! log.blk     below LSN: the log          above: kept in DIR.past-LSN-to-END.log first of all
//! pages.blk   zeros, once the control block has forgotten its checkpoint
//! control.blk a new one: Following, its mark at LSN, the seals below LSN, no checkpoint
//! ```
//!
//! Steps, each of which leaves a node:
//! 1. The log is read and judged up to LSN, where a record has to end. Nothing is written where it is
//!    refused.
//! 2. The commits behind LSN are counted. Where there are any, the caller has to have said how many: else
//!    nothing is written.
//! 3. What the log has above LSN is copied into a file beside the folder, which is synced and then gets
//!    its name.
//! 4. The control block forgets its checkpoint, and pages of zeros take the place of the pages.
//! 5. The folder's role goes away.
//! 6. The new control block takes the place of the old one, by one rename. Until then the node has its
//!    whole log, and from then on the one up to LSN.
//! 7. The node is opened, redoes its log and settles.
//!
//! A stop on the way is ended by another call: what is done already is done again.
#![tactic(auto)]

// Why a node is not taken back.
mod fault;
// Bytes from one place to another.
mod copying;
// The file that keeps the rest of a log.
mod keeping;
// The control block of a node that holds a front of its log.
mod control;
// That it is a node's.
mod laws;
// What is read before anything is written.
mod judging;
// The commits that are lost.
mod losing;
// The command.
mod rewinding;

pub use control::say_front;
pub use copying::copy;
pub use fault::Fault;
pub use laws::a_front_of_a_log_makes_a_node;
pub use losing::{Loses, LostCommits, check_agreed, lost_commits};
pub use rewinding::rewind;
