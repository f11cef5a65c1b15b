ghost use Rattle.std.specs.Prelude.{◌≡◌, ◌∷◌};
ghost use Rattle.als_operate.specs.Replies.{replies_of};

use std::snapshot::Snapshot;

/// What came to the question for a source's rank.
#[derive(Clone, Copy, Debug, PartialEq, Eq)]
pub enum Reply {
    /// Its rank.
    Rank,
    /// It hung up, or sent something else, as one of before that question does.
    HungUp,
    /// Nothing, for as long as it was waited for.
    Silence,
}

/// What came to all of them, for clauses alone: it takes no bytes.
#[derive(Drop)]
pub enum Replies {
    Nothing,
    Came(Snapshot<Replies>, Snapshot<Reply>),
}

impl Replies {
    /// This came.
    pub fn note(&mut self, reply: Reply)
        ensures { replies_of self.new ≡ reply ∷ replies_of self.old }
    {
        let before = Snapshot::of(self);
        *self = Replies::Came(before, Snapshot::of(&reply));
    }
}
