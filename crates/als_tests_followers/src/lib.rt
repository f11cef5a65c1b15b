//! Tests of als_callers and als_followers. They use public names alone.
#![tactic(auto)]

// Blocks of addresses.
#[cfg(test)]
mod blocks;
// A log in memory, and followers of it.
#[cfg(test)]
mod made;
// Sessions over the loopback.
#[cfg(test)]
mod sessions;
// Sessions of which some beat.
#[cfg(test)]
mod pulses;
// Who is hung up on.
#[cfg(test)]
mod crowds;
// A folder's one session, and its rank.
#[cfg(test)]
mod folders;
// Rounds of a leader.
#[cfg(test)]
mod rounds;
