ghost use Rattle.std.specs.Prelude.{◌≡◌, ◌++◌, ◌∷◌, []};
ghost use Rattle.als_lead.specs.Account.{taken_of, told_of};

use crate::answer::Answer;
use crate::asked::Asked;
use std::snapshot::Snapshot;

/// What clients handed out and what they were answered, for clauses only: it takes no bytes. Each
/// implementor of `Clients` has one.
#[derive(Drop)]
pub enum Account {
    Nothing,
    Taken(Snapshot<Account>, Snapshot<Asked>),
    Answered(Snapshot<Account>, Snapshot<Asked>, Snapshot<Answer>),
}

impl Account {
    /// Notes what was handed out.
    pub fn take(&mut self, asked: &Asked)
        ensures taken { taken_of self.new ≡ taken_of self.old ++ asked.now ∷ [] }
        ensures told { told_of self.new ≡ told_of self.old }
    {
        let before = Snapshot::of(self);
        *self = Account::Taken(before, Snapshot::of(asked));
    }

    /// Notes what was answered.
    pub fn tell(&mut self, asked: &Asked, answer: Answer)
        ensures taken { taken_of self.new ≡ taken_of self.old }
        ensures told { told_of self.new
            ≡ told_of self.old ++ record { asked = asked.now; answer = answer } ∷ [] }
    {
        let before = Snapshot::of(self);
        *self = Account::Answered(before, Snapshot::of(asked), Snapshot::of(&answer));
    }
}
