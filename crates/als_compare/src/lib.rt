//! Whether two nodes hold one log: a follower says what it holds, and the source answers whether its own
//! text is the same up to there.
//!
//! ```text
//! follower: epoch, end and SHA-256 of the held text --question--> source: judges its history, its end, its text
//!                      goes on, or ends with 50 <-----answer-----
//! ```
//!
//! 1. A question and its answer have a connection of their own, before a session. The session's frames stay
//!    as they are.
//! 2. A source judges the history first, then the end, and reads its text only where both let the follower
//!    go on.
//! 3. A log that is a front of the source's is never another one.
//! 4. A follower whose history parts from the source's, or that holds more, asks again about how its log begins: that the
//!    source's begins otherwise is said first.
//! 5. A node that is asked for its rank answers with the last seal at or below its acknowledged end, and that
//!    end: of several nodes the one whose rank is greatest holds all that was answered.
//! 6. A follower says the id of its folder before the frames of its session, on the same connection.
#![tactic(auto)]

// What a node says of the log that it holds.
mod summary;
// The digest of a text that grows.
mod summing;
// What a source answers.
mod verdict;
// Which answer it is.
mod judging;
// Up to where two logs begin alike, and what is said first.
mod beginnings;
// Which of several nodes is to be chosen.
mod rank;
// Numbers and digests out of a stream.
mod numbers;
// The two frames over a stream.
mod frames;
// The asking end.
mod asking;
// A rank over a stream, and the end that asks for it.
mod ranking;
// The id of a follower's folder over a stream.
mod naming;
// What holds of all answers.
mod laws;

pub use asking::ask;
pub use beginnings::{beginning, said_first};
pub use frames::{TAG, read_answer, read_question, read_rest, write_answer, write_question};
pub use judging::{judge_history, judge_text};
pub use laws::{
    beginning_decides, front_is_the_same, one_answer, other_text_differs, ranks_are_in_order,
};
pub use naming::{ID_TAG, read_id, read_whole_id, write_id};
pub use numbers::read_byte;
pub use rank::Rank;
pub use ranking::{RANK_TAG, ask_rank, read_rank, write_rank};
pub use summary::Summary;
pub use summing::Summing;
pub use verdict::Verdict;
