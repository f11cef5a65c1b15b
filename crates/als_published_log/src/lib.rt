//! A log in memory that is judged and published, with no device: what tests and benchmarks of a view
//! give their readers.
#![tactic(auto)]

// Why bytes are not taken.
mod fault;
// One record is judged, and its commit waits.
mod holding;
// The log.
mod published_log;

pub use fault::Fault;
pub use published_log::PublishedLog;
