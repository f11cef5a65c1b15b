//! A node's history: the seals of all takeovers before it. Two nodes whose logs may go on from one
//! another know it by their histories.
#![tactic(auto)]

// Why an offered history is refused.
mod fault;
// What a node does with an offered history.
mod step;
// A number as bytes, and back.
mod numbers;
// The seals of all takeovers before a node.
mod history;
// Seals as bytes, and back.
mod seals;
// Whether a node goes on with an offered history.
mod judging;
// What follows from a judgement.
mod laws;

pub use fault::Fault;
pub use history::{EPOCH_LIMIT, History};
pub use judging::judge;
pub use laws::{adopted_seals_stay_lsns, judgement_in_words};
pub use step::Step;
