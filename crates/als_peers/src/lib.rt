//! Whether a standby may be taken over: its rank is compared with those of the other nodes.
//!
//! ```text
//! the node's folder --rank--.
//! a peer's folder   --rank--+--> judge: none is above, and each answered
//! a peer's address  --R-----'
//! ```
//!
//! 1. Of several nodes the one whose rank is greatest holds each commit that was answered. A node below
//!    another one lacks some of its log, and what it lacks may have been answered.
//! 2. A peer that does not answer may hold more: its silence counts as a rank above.
//! 3. Nothing is written.
#![tactic(auto)]

// A peer's rank keeps a node from being taken over.
mod judging;
// Why a node may not be taken over.
mod fault;
// The rank of a folder's node or of one that serves.
mod asking;
// A node and its peers.
mod comparing;

pub use asking::ask;
pub use comparing::{Compares, compare};
pub use fault::Fault;
pub use judging::judge;
