//! The analysis pass of ARIES as a kept table: which transactions of a log are unended, what they
//! are doing, how many of their updates survive to be undone, and how many bytes a takeover would
//! append.
#![tactic(auto)]

// Why there is no table.
mod fault;
// One transaction that has not ended.
mod open_row;
// All of them.
mod trans_table;

pub use fault::Fault;
pub use open_row::OpenRow;
pub use trans_table::TransTable;
