//! Seats: many threads ask, one thread answers, and each answer goes to the seat that asked.
//!
//! ```text
//! asker --put--> line --next--> leader --tell--> the asker's slots --> asker
//! ```
//!
//! A question is waiting (in the line), then begun (taken by the leader), then has an outcome: answered,
//! not begun, or lost.
//!
//! 1. An asker puts all its questions in one turn of the line's lock, and sleeps until each has an
//!    outcome.
//! 2. The leader takes one question after another, in the order in which they were put. It allocates
//!    nothing, so it never fails for want of memory while an asker sleeps.
//! 3. A question has a place: its seat, and its index there. Its outcome is written at that place only,
//!    so two askers never get each other's answers.
//! 4. A question that was not begun in time is taken back, since nothing was done for it. One that was
//!    begun is waited for: what was done may be in the log. It is lost only if the leader ends without
//!    an answer.
#![tactic(auto)]

// Where the outcome of a question goes.
mod place;
// A question in the line.
mod ask;
// What becomes of a question.
mod outcome;
// The questions that wait, in order.
mod queue;
// What the leader found when it woke.
mod waited;
// The line, its lock, and what the leader sleeps on.
mod line;
// The outcomes of one asker's questions.
mod slots;
// A seat: slots, their lock, and what the asker sleeps on.
mod seat;
// The end that asks.
mod asker;
// The end that answers.
mod leader;
// Both ends.
mod making;

pub use ask::Ask;
pub use asker::Asker;
pub use leader::Leader;
pub use making::seats;
pub use outcome::Outcome;
pub use place::{PLACES, Place};
pub use waited::Waited;
