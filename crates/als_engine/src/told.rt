use crate::event::Event;
use als_past::Past;

/// Events, one after another, each with what it adds to the tally. For clauses alone.
#[derive(Drop)]
pub(crate) enum Told {
    Nothing,
    Then(Past<Told>, Event, usize),
}
