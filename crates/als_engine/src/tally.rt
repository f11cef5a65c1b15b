ghost use Rattle.std.specs.Prelude.{◌≡◌};
ghost use Rattle.als_engine.specs.Tally.{place_of, no_events, raised, TellsOk, TellsTaken};

use crate::event::Event;
use crate::fed::{Fed, FeedFault};
use crate::told::Told;
use als_past::Past;
use std::marker::Model;
use std::mem::replace;

/// How often each event answered Ok, and how many bytes feed took. It stands in clauses alone and
/// takes no bytes and no time.
#[derive(Drop)]
pub(crate) struct Tally {
    told: Past<Told>,
}

impl Model for Tally {
    ghost use Rattle.std.specs.Prelude.{ℕ, List};
    ghost use Rattle.als_engine.specs.Counting.{tally_of};

    ghost Value = { List ℕ };

    ghost view = { λ t. tally_of t.told.value };
}

impl Tally {
    /// No event was made.
    pub(crate) fn none() -> Tally
        ensures { result ≡ no_events }
    {
        Tally {
            told: Past::of(&Told::Nothing),
        }
    }

    /// Counts an event that answered Ok.
    pub(crate) fn tell<T, E>(&mut self, made: Event, answer: &Result<T, E>)
        ensures { TellsOk made answer.now self.old self.new }
    {
        if answer.is_ok() {
            self.raise(made, 1);
        }
    }

    /// Counts the bytes that a feed took.
    pub(crate) fn tell_taken(&mut self, answer: &Result<Fed, FeedFault>)
        ensures { TellsTaken answer.now self.old self.new }
    {
        match answer {
            Ok(fed) => self.raise(Event::Feed, fed.taken),
            Err(refusal) => self.raise(Event::Feed, refusal.taken),
        }
    }

    /// Raises the number of an event.
    fn raise(&mut self, made: Event, by: usize)
        ensures { self.new ≡ raised (place_of made) by self.old }
    {
        let before = replace(&mut self.told, Past::of(&Told::Nothing));
        self.told = Past::of(&Told::Then(before, made, by));
    }
}
