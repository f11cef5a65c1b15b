//! The bytes of a checkpoint.
#![tactic(auto)]

// Why bytes are no checkpoint.
mod fault;
// What a checkpoint says of its log beside the tables.
mod numbers;
// A checkpoint.
mod checkpoint;
// Whether the rows of a checkpoint are in order.
mod checkpoint_rows;
// A checkpoint as bytes, and back.
mod checkpoint_codec;

pub use checkpoint::Checkpoint;
pub use checkpoint_codec::{checkpoint_len, decode_checkpoint, encode_checkpoint};
pub use fault::Fault;
pub use numbers::Numbers;
