//! Tests of the seats between threads that ask and one that answers, by public names only.
#![tactic(auto)]

// Askers and a leader at work.
#[cfg(test)]
mod answering;
// What becomes of questions where the leader ends, or is slow.
#[cfg(test)]
mod ending;
