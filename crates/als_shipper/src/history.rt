ghost use Rattle.std.specs.Prelude.{◌≡◌, ℕ, List, Option};
ghost use Rattle.als_shipper.specs.Visits.{comes, goes};
ghost use Rattle.als_shipper.specs.History.{visits_of};

use std::snapshot::Snapshot;

/// Who came and who went, for clauses alone: it takes no bytes.
#[derive(Drop)]
pub(crate) enum History<S> {
    Nobody,
    Came(Snapshot<History<S>>, Snapshot<S>, Snapshot<S>),
    Went(Snapshot<History<S>>, Snapshot<S>, Snapshot<S>),
}

impl<S> History<S> {
    /// Somebody came, with these streams.
    pub(crate) fn come(&mut self, reader: &S, writer: &S)
        ensures { (remaining contents : S → Option (List ℕ))
            → visits_of remaining contents self.new ≡ comes (remaining reader.now)
            (contents writer.now) (visits_of remaining contents self.old) }
    {
        let before = Snapshot::of(self);
        *self = History::Came(before, Snapshot::of(reader), Snapshot::of(writer));
    }

    /// The last one goes.
    pub(crate) fn go(&mut self, reader: &S, writer: &S)
        ensures { (remaining contents : S → Option (List ℕ))
            → visits_of remaining contents self.new ≡ goes (remaining reader.now)
            (contents writer.now) (visits_of remaining contents self.old) }
    {
        let before = Snapshot::of(self);
        *self = History::Went(before, Snapshot::of(reader), Snapshot::of(writer));
    }
}
