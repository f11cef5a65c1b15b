ghost use Rattle.std.specs.Prelude.{◌≡◌, ◌<◌, ◌≤◌, ◌-◌, length, slice_set};
ghost use Rattle.std.specs.Vec.{vec_len};
ghost use Rattle.als_seats.specs.Outcomes.{RefusesFrom};

use crate::outcome::Outcome;
use std::alloc::Global;

/// The outcomes of one asker's questions.
pub(crate) struct Slots<A> {
    /// One for each question, `Lost` until another is written.
    outcomes: Vec<Outcome<A>>,
    /// How many questions have no outcome yet.
    left: usize,
    /// The leader has ended: no outcome is written any more.
    is_over: bool,
}

impl<A: Drop> Drop for Slots<A> {
    fn drop(self) {
        let Slots {
            outcomes,
            left: _,
            is_over: _,
        } = self;
        drop(outcomes);
    }
}

impl<A: Drop> Slots<A> {
    /// No request.
    pub fn new(alloc: Global) -> Slots<A> {
        Slots {
            outcomes: Vec::new(alloc),
            left: 0,
            is_over: false,
        }
    }

    /// Begins a request with an outcome for each of its questions.
    pub fn begin(&mut self, outcomes: Vec<Outcome<A>>)
        ensures outcomes { self.new.outcomes.items ≡ outcomes.items }
        ensures left { self.new.left ≡ vec_len outcomes }
    {
        self.left = outcomes.len();
        self.outcomes = outcomes;
    }

    /// Writes the outcome of the question at an index, and no other one.
    pub fn set_outcome(&mut self, at: usize, outcome: Outcome<A>)
        ensures told { at < length self.old.outcomes.items
            → self.new.outcomes.items ≡ slice_set self.old.outcomes.items at outcome }
        ensures past { length self.old.outcomes.items ≤ at
            → self.new.outcomes.items ≡ self.old.outcomes.items }
        ensures left { self.new.left ≡ self.old.left - 1 }
        ensures same { self.new.is_over ≡ self.old.is_over }
    {
        if at < self.outcomes.len() {
            self.outcomes[at] = outcome;
        }
        self.left = self.left.saturating_sub(1);
    }

    /// The questions from an index on were not put: their outcome is NotBegun, and no other one changes.
    pub fn refuse_from(&mut self, put: usize)
        ensures refused { RefusesFrom put self.old.outcomes.items self.new.outcomes.items }
        // As many less are waited for.
        ensures left { self.new.left
            ≡ self.old.left - (length self.old.outcomes.items - put) }
        ensures same { self.new.is_over ≡ self.old.is_over }
    {
        for at in put..self.outcomes.len() {
            self.set_outcome(at, Outcome::NotBegun);
        }
    }

    /// The leader has ended.
    pub fn end(&mut self) {
        self.is_over = true;
    }

    /// Whether a question has no outcome yet and may still get one.
    pub fn waits(&self) -> bool {
        self.left > 0 && !self.is_over
    }

    /// Takes the outcomes, once the asker waits for none.
    pub fn take(&mut self, none: Vec<Outcome<A>>) -> Vec<Outcome<A>>
        ensures { result.items ≡ self.old.outcomes.items }
    {
        std::mem::replace(&mut self.outcomes, none)
    }
}
