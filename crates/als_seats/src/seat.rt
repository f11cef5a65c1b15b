ghost use Rattle.std.specs.Prelude.{◌≡◌};
ghost use Rattle.std.specs.List.{filter};
ghost use Rattle.als_seats.specs.Asks.{is_of_other};

use crate::outcome::Outcome;
use crate::queue::Queue;
use crate::slots::Slots;
use std::alloc::Global;
use std::sync::{Condvar, CondvarTimeouts, Mutex, Wait};
use std::time::{Clock, Duration};

/// A seat: the outcomes of its asker's questions, and what the asker sleeps on.
pub(crate) struct Seat<A> {
    slots: Mutex<Slots<A>>,
    complete: Condvar,
}

impl<A: Drop> Drop for Seat<A> {
    fn drop(self) {
        let Seat { slots, complete: _ } = self;
        drop(slots);
    }
}

impl<A: Drop> Seat<A> {
    /// A seat with no request.
    pub fn new(alloc: Global) -> Seat<A> {
        Seat {
            slots: Mutex::new(Slots::new(alloc)),
            complete: Condvar::new(),
        }
    }

    /// Begins a request: one of these outcomes for each question, before the questions are put.
    pub fn begin<R: Wait>(&self, rt: &R, outcomes: Vec<Outcome<A>>) {
        self.slots.lock(rt).begin(outcomes);
    }

    /// The questions from an index on were not put.
    pub fn refuse_from<R: Wait>(&self, rt: &R, put: usize) {
        self.slots.lock(rt).refuse_from(put);
    }

    /// Writes the outcome of the question at an index. If it was the last one, the asker wakes.
    pub fn set_outcome<R: Wait>(&self, rt: &R, at: usize, outcome: Outcome<A>) {
        let mut slots = self.slots.lock(rt);
        slots.set_outcome(at, outcome);
        let waits = slots.waits();
        drop(slots);
        if !waits {
            self.complete.notify_one();
        }
    }

    /// The leader has ended.
    pub fn end<R: Wait>(&self, rt: &R) {
        self.slots.lock(rt).end();
        self.complete.notify_one();
    }

    /// Takes back this seat's questions that wait in the queue.
    pub fn take_back<R: Wait, T: Drop>(&self, rt: &R, seat: u32, queue: &mut Queue<T>)
        ensures kept { queue.new.waiting.items
            ≡ filter (is_of_other seat) queue.old.waiting.items }
        ensures same { queue.new.is_closed ≡ queue.old.is_closed }
    {
        let mut slots = self.slots.lock(rt);
        queue.take_back(seat, &mut *slots);
    }

    /// Waits at most `patience` for all outcomes. Err: one is missing; `none` is handed back.
    pub fn wait_for<R: Wait + Clock>(
        &self,
        rt: &R,
        patience: Duration,
        none: Vec<Outcome<A>>,
    ) -> Result<Vec<Outcome<A>>, Vec<Outcome<A>>> {
        let slots = self.slots.lock(rt);
        let (mut slots, _) = self
            .complete
            .wait_timeout_while(rt, slots, patience, |slots| slots.waits());
        if slots.waits() {
            return Err(none);
        }
        Ok(slots.take(none))
    }

    /// Waits for all outcomes, however long it takes.
    pub fn wait<R: Wait>(&self, rt: &R, none: Vec<Outcome<A>>) -> Vec<Outcome<A>> {
        let mut slots = self
            .complete
            .wait_while(rt, self.slots.lock(rt), |slots| slots.waits());
        slots.take(none)
    }
}
