//! Tests of the leader over an engine in memory. They use public names alone.
#![tactic(auto)]

// Clients in memory.
#[cfg(test)]
mod desk;
// Others, who confirm by a script.
#[cfg(test)]
mod others;
// A primary, and what is asked of it.
#[cfg(test)]
mod made;
// Groups and their answers.
#[cfg(test)]
mod groups;
// Groups that prepare and decide.
#[cfg(test)]
mod doubting;
// Groups that others confirm, or not.
#[cfg(test)]
mod confirming;
