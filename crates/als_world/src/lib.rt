//! A standby in a world: runs of steps over it, with crashes and restarts among them.
#![tactic(auto)]

// One step of a run, and its reply.
mod step;
// The worker slots.
mod slots;
// Steps over worker slots.
mod leasing;
// A step of a standby that stays up.
mod acting;
// An engine that is up, and its readers.
mod standby;
// A standby that is up, or the devices that it left.
mod place;
// A standby that is crashed and begun again.
mod restarting;
// The world.
mod world;
// What a world answers to who asks it.
mod asking;
// Runs of steps.
mod running;
// Laws of the definitions.
mod laws;

pub use laws::{a_restart_is_a_crash_on_the_wire, one_sealed_log};
pub use running::run;
pub use step::{WorldReply, WorldStep};
pub use world::World;
