ghost use Rattle.std.specs.Prelude.{◌≡◌, ◌<◌};
ghost use Rattle.crossbeam_channel.specs.Claims.{view};
ghost use Rattle.als_workers.specs.Passes.{IsPassOf};

use crate::pace::Pace;
use als_engine::Events;
use als_workers::{
    DispatchEnd, Ended, Halt, HandOff, Offer, OfferRecord, Pass, StoredOffers, Via, apply_worker,
    checkpointer, dispatcher, flusher, forcer,
};
use std::alloc::Global;
use std::sync::Wait;

/// What a thread did.
#[derive(Clone, Copy)]
pub(crate) struct Done {
    /// It ended as it is to end, and each lease that it offered was finished.
    pub is_well: bool,
    /// The leases that it offered.
    pub leases: u64,
    /// Those of 64 changes.
    pub deep: u64,
}

impl Done {
    /// No lease was offered.
    pub(crate) fn by(is_well: bool) -> Done {
        Done {
            is_well,
            leases: 0,
            deep: 0,
        }
    }

    /// What two threads did.
    pub(crate) fn and(self, other: Done) -> Done {
        Done {
            is_well: self.is_well && other.is_well,
            leases: self.leases.saturating_add(other.leases),
            deep: self.deep.saturating_add(other.deep),
        }
    }

    /// One more lease is offered.
    fn offer(self, offer: &Offer) -> Done {
        Done {
            is_well: self.is_well && offer.finished,
            leases: self.leases.saturating_add(1),
            deep: self.deep.saturating_add(u64::from(offer.turn == 4)),
        }
    }
}

/// A worker, with a pass of its own.
pub(crate) struct Worker<'a, E> {
    queue: &'a HandOff,
    pass: Pass,
    via: Via<E, StoredOffers>,
    ended: Option<Ended>,
    ghost seated: { IsPassOf queue.now pass },
    ghost parts: { 0 < (view pass).parts },
}

impl<E: Drop> Drop for Worker<'_, E> {
    fn drop(self) {
        let Worker {
            queue: _,
            pass: _,
            via,
            ended: _,
        } = self;
        drop(via);
    }
}

impl<'a, E: Events> Worker<'a, E> {
    pub(crate) fn new(queue: &'a HandOff, pass: Pass, events: E, alloc: Global) -> Worker<'a, E>
        requires queue { IsPassOf queue.now pass }
        requires parts { 0 < (view pass).parts }
    {
        Worker {
            queue,
            pass,
            via: Via::new(events, StoredOffers::new(alloc)),
            ended: None,
        }
    }

    /// Redoes leases until it takes a stop.
    fn run<R: Wait>(&mut self, rt: &R, pace: &Pace<'_, R>) {
        self.ended = Some(apply_worker(rt, self.queue, &mut self.pass, &mut self.via, pace));
    }

    fn end(self) -> (E, Done) {
        let Worker {
            queue: _,
            pass: _,
            via,
            ended,
        } = self;
        let (events, offers) = via.end();
        let mut done = Done::by(ended == Some(Ended::Stop));
        for offer in offers.offers() {
            done = done.offer(offer);
        }
        (events, done)
    }
}

/// A dispatcher of so many workers.
pub(crate) struct Dispatcher<'a, E> {
    queue: &'a HandOff,
    pass: Pass,
    events: E,
    workers: usize,
    is_well: bool,
    ghost seated: { IsPassOf queue.now pass },
    ghost parts: { 0 < (view pass).parts },
}

impl<E: Drop> Drop for Dispatcher<'_, E> {
    fn drop(self) {
        let Dispatcher {
            queue: _,
            pass: _,
            events,
            workers: _,
            is_well: _,
        } = self;
        drop(events);
    }
}

impl<'a, E: Events> Dispatcher<'a, E> {
    pub(crate) fn new(
        queue: &'a HandOff,
        pass: Pass,
        events: E,
        workers: usize,
    ) -> Dispatcher<'a, E>
        requires queue { IsPassOf queue.now pass }
        requires parts { 0 < (view pass).parts }
    {
        Dispatcher {
            queue,
            pass,
            events,
            workers,
            is_well: false,
        }
    }

    /// Lends what waits, until all is fed and redone. Then the run is closed.
    fn run<R: Wait>(&mut self, rt: &R, pace: &Pace<'_, R>) {
        let workers = self.workers;
        let queue = self.queue;
        let dispatched = dispatcher(rt, queue, &mut self.pass, &mut self.events, pace, workers);
        self.is_well = dispatched.end == DispatchEnd::Drained && dispatched.stops == workers;
        pace.close();
    }

    fn end(self) -> (E, Done) {
        let Dispatcher {
            queue: _,
            pass: _,
            events,
            workers: _,
            is_well,
        } = self;
        (events, Done::by(is_well))
    }
}

/// What a thread with neither a pass nor a lease does.
#[derive(Clone, Copy)]
pub(crate) enum Job<'a> {
    /// Feeds a text, in pieces of so many bytes.
    Feed(&'a [u8], usize),
    Flush,
    Checkpoint,
    Force,
}

/// Such a thread.
pub(crate) struct Helper<'a, E> {
    job: Job<'a>,
    events: E,
    is_well: bool,
}

impl<E: Drop> Drop for Helper<'_, E> {
    fn drop(self) {
        let Helper {
            job: _,
            events,
            is_well: _,
        } = self;
        drop(events);
    }
}

impl<'a, E: Events> Helper<'a, E> {
    pub(crate) fn new(job: Job<'a>, events: E) -> Helper<'a, E> {
        Helper {
            job,
            events,
            is_well: false,
        }
    }

    fn run<R: Wait>(&mut self, rt: &R, pace: &Pace<'_, R>) {
        let job = self.job;
        let events = &mut self.events;
        self.is_well = match job {
            Job::Feed(text, piece) => {
                let all = feed(events, text, piece);
                pace.end_feeding();
                all
            }
            Job::Flush => {
                let halt = flusher(rt, events, pace);
                pace.end_flushing();
                halt == Halt::Gate
            }
            Job::Checkpoint => checkpointer(rt, events, pace) == Halt::Gate,
            Job::Force => {
                let halt = forcer(rt, events, pace);
                pace.end_forcing();
                halt == Halt::Gate
            }
        };
    }

    fn end(self) -> (E, Done) {
        let Helper {
            job: _,
            events,
            is_well,
        } = self;
        (events, Done::by(is_well))
    }
}

/// Feeds a text in pieces. Whether all of it was taken.
fn feed<E: Events>(events: &mut E, text: &[u8], piece: usize) -> bool {
    for bytes in text.chunks(piece.max(1)) {
        if events.feed(bytes).is_err() {
            return false;
        }
    }
    true
}

/// What a thread works with.
#[derive(Drop)]
pub(crate) enum Seat<'a, E> {
    Work(Worker<'a, E>),
    Dispatch(Dispatcher<'a, E>),
    Help(Helper<'a, E>),
}

impl<'a, E: Events> Seat<'a, E> {
    pub(crate) fn run<R: Wait>(&mut self, rt: &R, pace: &Pace<'_, R>) {
        match self {
            Seat::Work(worker) => worker.run(rt, pace),
            Seat::Dispatch(dispatcher) => dispatcher.run(rt, pace),
            Seat::Help(helper) => helper.run(rt, pace),
        }
    }

    /// Its events, and what it did.
    pub(crate) fn end(self) -> (E, Done) {
        match self {
            Seat::Work(worker) => worker.end(),
            Seat::Dispatch(dispatcher) => dispatcher.end(),
            Seat::Help(helper) => helper.end(),
        }
    }
}
