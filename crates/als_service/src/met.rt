ghost use Rattle.std.specs.Prelude.{◌≡◌, ℕ, List, Option};
ghost use Rattle.als_service.specs.Sessions.{begins, ends, refuses};
ghost use Rattle.als_service.specs.Met.{sessions_of};

use als_operate::Fault;
use std::snapshot::Snapshot;

/// Which sessions there were, for clauses alone: it takes no bytes.
#[derive(Drop)]
pub enum Met<S> {
    Nobody,
    Began(Snapshot<Met<S>>, Snapshot<S>),
    Ended(Snapshot<Met<S>>, Snapshot<S>, Snapshot<Option<Result<(), Fault>>>),
    Refused(Snapshot<Met<S>>, Snapshot<Fault>),
}

impl<S> Met<S> {
    /// A session begins, with this stream to write to.
    pub fn begin(&mut self, writer: &S)
        ensures { (contents : S → Option (List ℕ))
            → sessions_of contents self.new ≡ begins (contents writer.now)
            (sessions_of contents self.old) }
    {
        let before = Snapshot::of(self);
        *self = Met::Began(before, Snapshot::of(writer));
    }

    /// The last one ends so.
    pub fn end(&mut self, writer: &S, ended: Option<Result<(), Fault>>)
        ensures { (contents : S → Option (List ℕ))
            → sessions_of contents self.new ≡ ends (contents writer.now) ended
            (sessions_of contents self.old) }
    {
        let before = Snapshot::of(self);
        *self = Met::Ended(before, Snapshot::of(writer), Snapshot::of(&ended));
    }

    /// None begins: there is no connection.
    pub fn refuse(&mut self, fault: Fault)
        ensures { (contents : S → Option (List ℕ))
            → sessions_of contents self.new ≡ refuses fault (sessions_of contents self.old) }
    {
        let before = Snapshot::of(self);
        *self = Met::Refused(before, Snapshot::of(&fault));
    }
}
