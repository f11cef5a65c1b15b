ghost use Rattle.std.specs.Prelude.{◌≡◌, ◌++◌, ◌∷◌, []};
ghost use Rattle.als_sending.specs.Accounts.{heard_of, begun_of};

use als_record::Lsn;
use std::snapshot::Snapshot;

/// What a session told of its follower, for clauses alone: it takes no bytes of what it keeps. Who
/// meets `Marks` has one.
#[derive(Drop)]
pub enum Heard {
    Nothing,
    /// A session began from there.
    Begun(Snapshot<Heard>, Snapshot<Lsn>),
    /// This was acknowledged.
    Acknowledged(Snapshot<Heard>, Snapshot<Lsn>),
}

impl Heard {
    /// A session begins.
    pub fn begin(&mut self, from: Lsn)
        ensures heard { heard_of self.new ≡ heard_of self.old }
        ensures begun { begun_of self.new ≡ begun_of self.old ++ from.0 ∷ [] }
    {
        let before = Snapshot::of(self);
        *self = Heard::Begun(before, Snapshot::of(&from));
    }

    /// An LSN is acknowledged.
    pub fn acknowledge(&mut self, lsn: Lsn)
        ensures heard { heard_of self.new ≡ heard_of self.old ++ lsn.0 ∷ [] }
        ensures begun { begun_of self.new ≡ begun_of self.old }
    {
        let before = Snapshot::of(self);
        *self = Heard::Acknowledged(before, Snapshot::of(&lsn));
    }
}
