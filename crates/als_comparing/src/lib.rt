//! A source of a log that grows answers whether its log is the one that a follower holds, or sends it.
//!
//! ```text
//! who came --V--> answer: judges the history and the end, reads the text up to the question's end
//!          --R--> tell_rank: the last seal at or below the acknowledged end, and that end
//!          --Q--> send_log: a session, as ever
//! ```
//!
//! 1. Its text is read once for a question, a piece at a time, and only where history and end don't decide.
//! 2. A follower reads its own log once, however often it asks.
//! 3. Whoever asks gets the answer alone, and begins no session.
#![tactic(auto)]

// The digest of a log's text, a piece at a time.
mod adding;
// The answer to a question.
mod answering;
// The answer to who asks for the rank.
mod ranking;
// A question or a session.
mod serving;
// A question alone.
mod asked;
// A follower's own log.
mod held_log;

pub use asked::answer_question;
pub use held_log::HeldLog;
pub use serving::serve_log;
