ghost use Rattle.std.specs.Prelude.{◌≡◌};
ghost use Rattle.als_engine.specs.Tally.{no_events, TellsOk, TellsTaken};

use super::Engine;
use crate::event::Event;
use crate::fed::{Fed, FeedFault};
use crate::tally::Tally;
use als_disk::BlockDisk;

impl<D: BlockDisk> Engine<D> {
    /// Starts the tally: no event is counted yet. Nothing else changes.
    pub fn start_tally(&mut self)
        ensures { self.new ≡ record self.old { tally = no_events } }
    {
        self.told = Tally::none();
    }

    /// Counts an event, if it answered Ok.
    pub(crate) fn note<T, E>(&mut self, made: Event, answer: &Result<T, E>)
        ensures told { TellsOk made answer.now self.old.tally self.new.tally }
        ensures book { self.new.book ≡ self.old.book }
        ensures machine { self.new.machine ≡ self.old.machine }
        ensures spare { self.new.spare ≡ self.old.spare }
        ensures room { self.new.room ≡ self.old.room }
    {
        self.told.tell(made, answer);
    }

    /// Counts the bytes that a feed took.
    pub(crate) fn note_taken(&mut self, answer: &Result<Fed, FeedFault>)
        ensures told { TellsTaken answer.now self.old.tally self.new.tally }
        ensures book { self.new.book ≡ self.old.book }
        ensures machine { self.new.machine ≡ self.old.machine }
    {
        self.told.tell_taken(answer);
    }
}
