//! Tests of a standby that goes on. They use public names alone.
#![tactic(auto)]

// Connections that are given beforehand.
#[cfg(test)]
mod scripted;
// One session after another.
#[cfg(test)]
mod keeping;
