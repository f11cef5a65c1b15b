//! Tests of the question whether two nodes hold one log. They use public names alone.
#![tactic(auto)]

// A log in memory.
#[cfg(test)]
mod log;
// The two frames.
#[cfg(test)]
mod frames;
// Questions over a log of several pieces.
#[cfg(test)]
mod questions;
// Ranks.
#[cfg(test)]
mod ranks;
// How logs begin, and the id of a folder.
#[cfg(test)]
mod beginnings;
