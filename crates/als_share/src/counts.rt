ghost use Rattle.std.specs.Prelude.{◌≡◌};
ghost use Rattle.als_engine.specs.Tally.{no_events};

use als_disk::BlockDisk;
use als_engine::{Engine, Events};

/// Events of an engine that nobody else drives, whose tally can be started.
pub trait Counts: Events {
    /// Starts the tally: no event is counted yet. Nothing else changes.
    fn start_tally(&mut self)
        ensures tally { Self.tally self.new ≡ no_events }
        ensures same { Self.machine self.new ≡ Self.machine self.old }
        ensures book { Self.book self.new ≡ Self.book self.old };
}

impl<D: BlockDisk> Counts for Engine<D> {
    fn start_tally(&mut self) {
        Engine::start_tally(self);
    }
}
