//! Tests of the sending end of a session over a log in memory. They use public names alone.
#![tactic(auto)]

// A log in memory that grows by a script.
#[cfg(test)]
mod log;
// What a follower tells, and what is heard of it.
#[cfg(test)]
mod follower;
// Sessions to their end.
#[cfg(test)]
mod sessions;
// Sessions that end early.
#[cfg(test)]
mod refusals;
