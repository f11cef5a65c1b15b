//! Callers, who connect to a listener to follow a log: who may come, how long each may take, and how a
//! thread takes one over.
//!
//! ```text
//! connects --allowed?--> is to ask --question there--> desk --a thread that is free--> session
//!             | no            | 5 s over                 | none is free
//!             '---------------'--------> hung up on <----'
//! ```
//!
//! 1. Nobody is waited for: a caller who is slow to ask delays no one else.
//! 2. A frame has limited time, whatever number of pieces it comes in. A socket's own limit is for each
//!    call, so a peer that sends a byte now and then would never exceed it.
//! 3. Once it is closed (`Closing`) nobody comes any more, and who is there has two seconds left.
#![tactic(auto)]

// A block of addresses.
mod block;
// Whose addresses may come.
mod allowed;
// Whether nobody may come any more.
mod closing;
// How long a frame takes.
mod pace;
// A stream whose frames have limited time.
mod guest;
// Where threads meet those who asked.
mod desk;
// Those who are to ask.
mod asking;

pub use allowed::Allowed;
pub use asking::{Asking, Came};
pub use block::Block;
pub use closing::Closing;
pub use desk::Desk;
pub use guest::Guest;
pub use pace::Pace;
