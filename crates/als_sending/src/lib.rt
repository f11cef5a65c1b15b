//! The sending end of a session: it sends a log text that only grows to one follower, with several
//! frames on the way at once.
//!
//! ```text
//!     asks -> history told -> admitted -> sends | hears | waits -> the empty frame, and its answer
//!      |                         |          ^-------+-------'
//!      '------- refused ---------'
//! ```
//!
//! 1. One thread. It sends while a piece is there and the window has room, hears an answer else, and
//!    waits only where each frame is answered. So neither end ever waits for the other one to read.
//! 2. At most `window` frames are without an answer.
//! 3. Bytes are read only below an end that the log has told, and are sent at the offset at which
//!    they were read.
//! 4. Only what the follower answers is acknowledged, never where it goes on.
//! 5. One buffer, allocated once. No frame allocates.
#![tactic(auto)]

// A log that grows.
mod growing;
// What waiting for it meets.
mod grown;
// What was read of it, for clauses.
mod account;
// What a follower acknowledged.
mod marks;
// What was heard of it, for clauses.
mod heard;
// How far a session has come.
mod way;
// The way in: a follower asks, and is admitted.
mod meeting;
// Frames out, and answers in.
mod stepping;
// The loop of a session.
mod pouring;
// A whole session.
mod sending;
// What follows from what was sent.
mod laws;

pub use account::Account;
pub use growing::Growing;
pub use grown::Grown;
pub use heard::Heard;
pub use laws::{sent_frames_are_true, sent_pieces_cover, what_is_acknowledged_was_told};
pub use marks::Marks;
pub use sending::{WINDOW_LIMIT, send_log};
