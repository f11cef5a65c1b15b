//! Tests of three nodes over the loopback: a primary and two standbys, each with a folder of its own, put
//! together from their parts and as the program runs them. They use public names alone.
#![tactic(auto)]

// Who asks a primary for transactions.
#[cfg(test)]
mod asking;
// What a commit waits for.
#[cfg(test)]
mod confirming;
// A primary that ships its log.
#[cfg(test)]
mod primary;
// A standby.
#[cfg(test)]
mod standby;
// All three.
#[cfg(test)]
mod nodes;
// Where a primary of the program announces that it serves.
#[cfg(test)]
mod ports;
// A primary and a standby as the program runs them.
#[cfg(test)]
mod served;
// Their client over HTTP.
#[cfg(test)]
mod client;
// Two primaries, one after the other.
#[cfg(test)]
mod failing_over;
