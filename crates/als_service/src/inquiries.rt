ghost use Rattle.std.specs.Prelude.{◌≡◌, ◌∷◌};
ghost use Rattle.als_service.specs.Inquiries.{inquiries_of, Looked, Put, AsksOfFront};

use crate::standing::Standing;
use als_compare::{Summary, Verdict};
use std::snapshot::Snapshot;

/// What was seen of the held log, and what a primary was asked about it and answered, for clauses alone: it takes no
/// bytes.
#[derive(Drop)]
pub(crate) enum Inquiries {
    Nothing,
    /// After these a look at what is held.
    Looked(Snapshot<Inquiries>, Snapshot<Standing>),
    /// After these a question, and what came. None: it hung up, or sent no answer.
    Asked(Snapshot<Inquiries>, Snapshot<Summary>, Snapshot<Option<Verdict>>),
    /// After these questions about how the log begins, and what was answered. None: nothing that could be told.
    Begun(Snapshot<Inquiries>, Snapshot<Option<Verdict>>),
}

impl Inquiries {
    /// This is held.
    pub fn look(&mut self, standing: Standing)
        ensures { inquiries_of self.new ≡ Looked standing ∷ inquiries_of self.old }
    {
        let before = Snapshot::of(self);
        *self = Inquiries::Looked(before, Snapshot::of(&standing));
    }

    /// This came to a question.
    pub fn note(&mut self, question: &Summary, answer: Option<Verdict>)
        ensures { inquiries_of self.new ≡ Put question.now answer ∷ inquiries_of self.old }
    {
        let before = Snapshot::of(self);
        *self = Inquiries::Asked(before, Snapshot::of(question), Snapshot::of(&answer));
    }

    /// This came to questions about how the log begins.
    pub fn begin(&mut self, answer: Option<Verdict>)
        ensures { inquiries_of self.new ≡ AsksOfFront answer ∷ inquiries_of self.old }
    {
        let before = Snapshot::of(self);
        *self = Inquiries::Begun(before, Snapshot::of(&answer));
    }
}
