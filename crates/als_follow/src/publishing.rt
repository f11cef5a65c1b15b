ghost use Rattle.std.specs.Prelude.{◌≡◌, IfErr, ⊤};
ghost use Rattle.als_ship.specs.Follows.{SameText};

use crate::scheduler::Scheduler;
use als_engine::{Events, Fault};
use als_ship::Upkeep;
use std::sync::Wait;

/// The upkeep of a follower beside which threads work: after each acknowledged frame its commits are
/// published, and the scheduler knows how far the log is acknowledged.
#[derive(Drop)]
pub(crate) struct Publishing<'a, R: Wait> {
    rt: &'a R,
    scheduler: &'a Scheduler<'a, R>,
}

impl<'a, R: Wait> Publishing<'a, R> {
    pub fn new(rt: &'a R, scheduler: &'a Scheduler<'a, R>) -> Publishing<'a, R> {
        Publishing { rt, scheduler }
    }
}

impl<R: Wait> Upkeep for Publishing<'_, R> {
    ghost use Rattle.std.specs.Prelude.{⊤};

    ghost refuses = { λ _ _. ⊤ };

    // Where another thread closed the scheduler, the session ends as Stopped.
    #[tactic(auto, using(als_operate::proofs::Keeping::publish_same, als_ship::proofs::LogForcing::same_refl))]
    fn keep_up<E: Events>(&mut self, events: &mut E) -> Result<(), Fault> {
        match events.publish_view(self.rt) {
            Ok(()) | Err(Fault::NothingToDo) => {}
            Err(fault) => return Err(fault),
        }
        self.scheduler
            .set_acknowledged(events.status().acknowledged);
        if self.scheduler.is_closed() {
            return Err(Fault::Stopped);
        }
        Ok(())
    }
}
