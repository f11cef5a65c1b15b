//! The frames of a session between two nodes, as bytes over a stream, and back.
#![tactic(auto)]

// Why no frame is read or written.
mod fault;
// What a frame begins with.
mod tag;
// Numbers out of a stream.
mod numbers;
// What is written, also where the writer fails.
mod sending;
// What goes over the stream.
mod frame;
// Histories out of a stream.
mod histories;
// Frames out of a stream.
mod reading;
// Frames into a stream.
mod writing;
// What holds of all frames.
mod laws;

pub use fault::Fault;
pub use frame::{Frame, PIECE_LIMIT};
pub use laws::{no_refusal_of_a_frame, one_frame};
pub use reading::{is_head, read_acknowledged, read_data, read_epochs, read_resume};
pub use tag::Tag;
pub use writing::{write_acknowledged, write_data, write_epochs, write_resume};
