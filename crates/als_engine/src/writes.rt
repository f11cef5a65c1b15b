ghost use Rattle.als_engine.specs.WritingOwn.{TellsKeyNow, TellsNextOwed};
ghost use Rattle.als_store.specs.WritingOwn.{TellsOfWriting};

use crate::engine::Engine;
use crate::events::Events;
use crate::fault::Fault;
use als_disk::BlockDisk;
use als_record::{Key, Record};
use als_store::{KeyNow, WritingNow};

/// What a writer of transactions of its own asks of an engine. A query is no event: nothing is read,
/// counted or changed.
pub trait Writes: Events {
    /// What a key has now, with what open transactions wrote there, and the open transaction that
    /// holds it. The faults are those by which a feed is refused whatever it brings, in their order;
    /// then BadKey: the database has no such key.
    fn key_now(&self, key: Key) -> Result<KeyNow, Fault>
        ensures now { Self.alone → TellsKeyNow (Self.machine self.now) key result };

    /// What a writer has to know of the log before it writes: the greatest TransID, the number of
    /// unended transactions, the free bytes of the log's device and the last commit.
    fn writing(&self) -> WritingNow
        ensures writing { Self.alone → TellsOfWriting (Self.machine self.now).held result };

    /// The next record that is owed to the log, `None` exactly where none is: after a stop in the
    /// middle of a transaction its end, or its compensations and end. Sealed: the log was sealed.
    fn next_of_tail(&self) -> Result<Option<Record>, Fault>
        ensures next { Self.alone → TellsNextOwed (Self.machine self.now) result };
}

// An engine answers by itself.
impl<D: BlockDisk> Writes for Engine<D> {
    fn key_now(&self, key: Key) -> Result<KeyNow, Fault> {
        Engine::key_now(self, key)
    }

    fn writing(&self) -> WritingNow {
        Engine::writing(self)
    }

    fn next_of_tail(&self) -> Result<Option<Record>, Fault> {
        Engine::next_of_tail(self)
    }
}
