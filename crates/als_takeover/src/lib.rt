//! Undo at a takeover, as the undo pass of ARIES does it: which record comes next, and what of a
//! transaction survives, both read from the log along undo chains.
#![tactic(auto)]

// The records of an undo chain.
mod chain;
// The surviving updates of one transaction.
mod surviving;
// The next record of a tail.
mod undo;

pub use surviving::survivors;
pub use undo::next_undo;
