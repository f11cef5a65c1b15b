//! Tests of new generations of a log, over texts in memory, and of nodes that are taken back, over files.
//! They use public names alone.
#![tactic(auto)]

// A log as bytes.
#[cfg(test)]
mod log;
// A new generation of it.
#[cfg(test)]
mod beginning;
// A folder with a node of it.
#[cfg(test)]
mod node;
// The node is taken back.
#[cfg(test)]
mod rewinding;
