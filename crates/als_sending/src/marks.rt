ghost use Rattle.std.specs.Prelude.{◌≡◌, ◌++◌, ◌∷◌, ℕ, List, [], Option, None};
ghost use Rattle.std.specs.Io.KnownBytes.{Appends, Keeps};

use als_record::Lsn;

/// What a session tells of its follower.
pub trait Marks {
    /// The LSNs that it acknowledged, in order.
    ghost heard: { Self → List ℕ };

    /// From where its sessions began, in order, where that is known.
    ghost begun: { Self → Option (List ℕ) } = { λ _. None };

    /// The follower asked, with this log's header, and was admitted: it goes on from there. It has
    /// acknowledged nothing yet.
    fn begin(&mut self, from: Lsn)
        ensures heard { heard self.new ≡ heard self.old }
        ensures begun { Appends (begun self.old) (begun self.new) (from.0 ∷ []) };

    /// A frame with log bytes is sent to it now. It answers frames in the order in which they were sent.
    fn send(&mut self)
        ensures heard { heard self.new ≡ heard self.old }
        ensures begun { Keeps (begun self.old) (begun self.new) };

    /// It answered a frame: it holds each log byte below this LSN on its devices.
    fn acknowledge(&mut self, lsn: Lsn)
        ensures heard { heard self.new ≡ heard self.old ++ lsn.0 ∷ [] }
        ensures begun { Keeps (begun self.old) (begun self.new) };
}
