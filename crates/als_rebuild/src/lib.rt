//! The pages of a stopped node, laid out anew from its log, whatever became of them.
#![tactic(auto)]

// The command.
mod rebuilding;

pub use rebuilding::rebuild_pages;
