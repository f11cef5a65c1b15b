//! Runs scripts on a standby in memory: what `als sim` does.
#![tactic(auto)]

// A device of the standby.
mod disk;
// What makes its devices fail.
mod fuses;
// A world and the log text of the lines so far.
mod simulation;
// Lines of one step.
mod stepping;
// Lines of several steps.
mod combined;
// What a script's steps answered, as text.
mod printing;
// The line of a refusal.
mod refusal_line;
// What is there, as text.
mod showing;
// A feed that began at a wrong place.
mod misplaced;
// What a script leaves.
mod left;
// Why a script does not run to its end.
mod failure;
// How a script ended.
mod ending;
// A script, whole.
mod running;

pub use ending::Ending;
pub use failure::Failure;
pub use left::Left;
pub use misplaced::Misplaced;
pub use running::sim;
pub use simulation::Simulation;
