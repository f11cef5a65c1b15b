use crate::scheduler::Scheduler;
use als_engine::Events;
use als_share::{Ledgers, Shared};
use als_workers::HandOff;
use std::alloc::Global;
use std::sync::Wait;

/// What all threads of a session work with.
#[derive(Drop)]
pub(crate) struct Context<'a, L: Ledgers, E: Events, R: Wait> {
    pub rt: &'a R,
    pub alloc: Global,
    pub shared: &'a Shared<L, E>,
    pub queue: &'a HandOff,
    pub scheduler: &'a Scheduler<'a, R>,
}
