ghost use Rattle.std.specs.Prelude.{◌≡◌, ◌+◌};
ghost use Rattle.als_disk.specs.Count.{number};

use std::snapshot::Snapshot;

/// A count for clauses alone: it takes no bytes, has no bound, and never wraps.
#[derive(Drop)]
pub(crate) enum Count {
    Zero,
    More(Snapshot<Count>),
}

impl Count {
    /// Counts one more.
    pub(crate) fn step(&mut self)
        ensures { number self.new ≡ number self.old + 1 }
    {
        let before = Snapshot::of(self);
        *self = Count::More(before);
    }
}
