//! Tests of looks back, over texts in memory. They use public names alone.
#![tactic(auto)]

// A log as bytes.
#[cfg(test)]
mod log;
// The log up to an LSN.
#[cfg(test)]
mod cutting;
// What the commits up to an LSN left, and where a transaction committed.
#[cfg(test)]
mod looking;
// A log that a session copies.
#[cfg(test)]
mod backing_up;
