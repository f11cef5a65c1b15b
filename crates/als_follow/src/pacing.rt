use crate::scheduler::Scheduler;
use als_engine::Status;
use als_share::Observer;
use std::sync::Wait;

/// The observer beside events that are paced. Before a feed it waits while too much waits for redo. Each status that is asked for tells the scheduler
/// how much does.
#[derive(Drop)]
pub(crate) struct Pacing<'a, R: Wait> {
    scheduler: &'a Scheduler<'a, R>,
}

impl<'a, R: Wait> Pacing<'a, R> {
    pub fn new(scheduler: &'a Scheduler<'a, R>) -> Pacing<'a, R> {
        Pacing { scheduler }
    }
}

impl<R: Wait> Observer for Pacing<'_, R> {
    fn before_feed(&self) {
        self.scheduler.give_way();
    }

    fn after_status(&self, status: &Status) {
        self.scheduler.set_pending(status.pending as u64);
    }
}
