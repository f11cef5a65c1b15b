//! The standby's engine: each event is one step of a small machine over the stored log.
#![tactic(auto)]

// What an engine is made with.
mod config;
// Why an event is refused.
mod fault;
// Devices over which no engine could be made.
mod refused;
// What the engine tells of itself.
mod status;
// What feed answers.
mod fed;
// A record held, and its commit queued for readers.
mod holding;
// Records from the receiver to the store.
mod taking_in;
// The events that are counted.
mod event;
// A list of them.
mod told;
// How often each event answered Ok.
mod tally;
// A lease that was not taken in.
mod not_given;
// The engine and its events.
mod engine;
// What a standby is driven by.
mod events;
// An engine's events.
mod engine_events;
// What a writer asks.
mod writes;
// One step of the small machine, and its reply.
mod step;
// Laws of the small machine.
mod laws;

pub use als_epochs::History;
pub use als_lease::PageLease;
pub use als_store::{Decision, Disks, KeyNow, WritingNow};
pub use als_view::{Answer, Reader};
pub use config::{CONTROL_BLOCKS, Config, LOG_BLOCK_LIMIT};
pub use engine::Engine;
pub use event::Event;
pub use events::Events;
pub use fault::Fault;
pub use fed::{Fed, FeedFault};
pub use laws::answers_are_of_published_commits;
pub use not_given::NotGiven;
pub use refused::Refused;
pub use status::{State, Status};
pub use step::{Reply, Step};
pub use writes::Writes;
