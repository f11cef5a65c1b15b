//! Seats whose outcomes are owed: what an asker hears of a question may be told of that very question.
//!
//! ```text
//! asker --its number in the book--> line --next--> leader --tell, with the question's ticket--> slots --> asker
//! ```
//!
//! 1. When an answer may be told of a question is an oath, chosen once for all who share a line. Only by it
//!    an answer gets into a slot.
//! 2. A book, in proofs alone, has all questions that were ever asked. Each has its number in it, and a ticket
//!    says which question has a number. The asker keeps one ticket, and one goes with the question.
//! 3. An answer lies in its slot with the ticket of its question. The asker compares the numbers, and so
//!    knows that the answer is one to its own question.
#![tactic(auto)]

// The book of all questions, in proofs alone.
mod book;
// The number of a question.
mod ticket;
// When an answer may be told.
mod oath;
// A question with its ticket.
mod question;
// An answer with the ticket of its question.
mod answered;
// What was told, for clauses.
mod account;
mod reply;
// All questions, under a lock.
mod numbers;
// The end that asks.
mod asker;
// The end that answers.
mod leader;
// Both ends.
mod making;

pub use account::Account;
pub use asker::Asker;
pub use book::{Book, Front, Naming, Opened};
pub use leader::Leader;
pub use making::seats;
pub use oath::Oath;
pub use question::Question;
pub use reply::Reply;
pub use ticket::Ticket;
