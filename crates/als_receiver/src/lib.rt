//! Log records out of bytes that come in pieces.
#![tactic(auto)]

// Bytes that are no record, and where.
mod refusal;
// Bytes in, records out.
mod receiver;
// What holds over whole histories of calls.
mod history;

pub use history::each_cutting_hands_out_the_same;
pub use receiver::Receiver;
pub use refusal::Refusal;
