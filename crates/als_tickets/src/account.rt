ghost use Rattle.std.specs.Prelude.{◌≡◌, ◌++◌, ◌∷◌, []};
ghost use Rattle.als_tickets.specs.Replies.{replies_of};

use als_past::Past;
use als_seats::Place;
use std::snapshot::Snapshot;

/// What was told, in order, for clauses alone: it takes no bytes. Only a leader that tells adds to it.
#[derive(Drop)]
pub struct Account<T, A> {
    notes: Notes<T, A>,
}

/// What an account holds.
#[derive(Drop)]
enum Notes<T, A> {
    Nothing,
    Told(Snapshot<Notes<T, A>>, Snapshot<Place>, Snapshot<Past<T>>, Snapshot<A>),
}

impl<T, A> Account<T, A> {
    /// Nothing was told yet.
    pub fn new() -> Account<T, A>
        ensures { replies_of result ≡ [] }
    {
        Account {
            notes: Notes::Nothing,
        }
    }

    /// Notes what is told of the question of a place.
    pub(crate) fn note(&mut self, place: Place, question: &Past<T>, answer: &A)
        ensures { replies_of self.new ≡ replies_of self.old
            ++ record { place = place; question = question.now.value; answer = answer.now } ∷ [] }
    {
        let before = Snapshot::of(&self.notes);
        self.notes = Notes::Told(
            before,
            Snapshot::of(&place),
            Snapshot::of(question),
            Snapshot::of(answer),
        );
    }
}
