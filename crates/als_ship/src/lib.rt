//! The primary's log over a byte stream: the shipper that sends it, and the follower that takes it.
#![tactic(auto)]

// Why a session ends early.
mod fault;
// Where a shipper reads the log.
mod source;
// The log of a node as a source.
mod node_log;
// The sending end.
mod shipper;
// A standby's log onto its devices.
mod forcing;
// What is done between the frames.
mod upkeep;
// What a session acknowledges by.
mod voucher;
// The voucher for a standby that nobody else drives.
mod direct;
// The source's history, taken up by a standby.
mod joining;
// The receiving end.
mod follower;
// What holds over every schedule of frames.
mod laws;

pub use als_wire::{Frame, PIECE_LIMIT, Tag, no_refusal_of_a_frame, one_frame};
pub use direct::Direct;
pub use fault::Fault;
pub use follower::Follower;
pub use forcing::force;
pub use laws::{held_text_stays_a_front, sent_bytes_are_the_source, what_is_heard_was_told};
pub use node_log::acknowledged_log;
pub use shipper::Shipper;
pub use source::{LogBytes, Source};
pub use upkeep::{NoUpkeep, Upkeep};
pub use voucher::Voucher;
