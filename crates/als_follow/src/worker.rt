ghost use Rattle.std.specs.Prelude.{◌≡◌, ◌<◌};
ghost use Rattle.crossbeam_channel.specs.Claims.{view};
ghost use Rattle.als_workers.specs.Passes.{IsPassOf};

use crate::refusal::Refusal;
use crate::scheduler::Scheduler;
use als_engine::{Events, Fault};
use als_ship::Fault as SessionFault;
use als_workers::{Ended, GhostOffers, HandOff, Pass, Via, apply_worker};
use std::sync::Wait;

/// A worker: its pass of the queue of leases, its way to the engine, and why it ended early.
pub(crate) struct Worker<'a, E> {
    queue: &'a HandOff,
    pass: Pass,
    via: Via<E, GhostOffers>,
    refusal: Option<Refusal>,
    ghost taken: { IsPassOf queue.now pass },
    ghost parts: { 0 < (view pass).parts },
}

// Written out: a derived drop is proved wherever a worker is dropped, this one only here.
impl<E: Drop> Drop for Worker<'_, E> {
    fn drop(self) {
        let Worker {
            queue: _,
            pass: _,
            via,
            refusal: _,
        } = self;
        drop(via);
    }
}

impl<'a, E: Events> Worker<'a, E> {
    pub fn new(queue: &'a HandOff, pass: Pass, events: E) -> Worker<'a, E>
        requires queue { IsPassOf queue.now pass }
        requires parts { 0 < (view pass).parts }
    {
        Worker {
            queue,
            pass,
            via: Via::new(events, GhostOffers::new()),
            refusal: None,
        }
    }

    /// Redoes leases until it takes a stop or the scheduler closes.
    pub fn work<R: Wait>(&mut self, rt: &R, scheduler: &Scheduler<'_, R>) {
        scheduler.enter();
        let ended = apply_worker(rt, self.queue, &mut self.pass, &mut self.via, scheduler);
        if ended == Ended::Memory {
            self.refusal = Some(Refusal::new(scheduler, SessionFault::Refused(Fault::Memory)));
            scheduler.close();
        }
    }

    /// Its events, and why it ended early.
    pub fn end(self) -> (E, Option<Refusal>) {
        let Worker {
            queue: _,
            pass: _,
            via,
            refusal,
        } = self;
        let (events, _) = via.end();
        (events, refusal)
    }
}
