//! Tests of sessions that are followed with threads beside the follower. They use public names
//! alone.
#![tactic(auto)]

// A log, and the frames in which it is sent.
#[cfg(test)]
mod logs;
// The engines that follow.
#[cfg(test)]
mod standbys;
// A session by so many workers, and what it leaves.
#[cfg(test)]
mod sessions;
// Sessions with workers beside those of one thread.
#[cfg(test)]
mod alike;
// A stream that is cut.
#[cfg(test)]
mod cut;
// A device that fails.
#[cfg(test)]
mod failing;
// A device that counts its calls.
#[cfg(test)]
mod watched;
// Redo, page writes and checkpoints while a session goes on.
#[cfg(test)]
mod beside;
