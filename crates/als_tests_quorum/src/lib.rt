//! Tests of als_quorum.
#![tactic(auto)]

// The rows of a roll.
#[cfg(test)]
mod rolls;
// Folders that count once.
#[cfg(test)]
mod folders;
// Leaders that wait.
#[cfg(test)]
mod waits;
// The tail of a log.
#[cfg(test)]
mod tails;
// The rounds of a log.
#[cfg(test)]
mod rounds;
// What a leader waits for.
#[cfg(test)]
mod wanting;
