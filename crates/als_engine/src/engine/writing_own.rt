ghost use Rattle.std.specs.Prelude.{◌≡◌, None, true};
ghost use Rattle.als_engine.specs.Refusals.{feed_refusal};
ghost use Rattle.als_engine.specs.WritingOwn.{AnswersKeyNow, TellsKeyNow};
ghost use Rattle.als_engine.specs.WritingOwn.{TellsNextOwed};
ghost use Rattle.als_store.specs.Takeover.{is_following};
ghost use Rattle.als_store.specs.WritingOwn.{TellsOfWriting};

use super::Engine;
use crate::fault::Fault;
use als_disk::BlockDisk;
use als_record::{Key, Record};
use als_store::{KeyNow, WritingNow};

impl<D: BlockDisk> Engine<D> {
    /// Why a feed is refused whatever it brings.
    fn refused_feed(&self) -> Option<Fault>
        ensures is { result ≡ feed_refusal self.now.machine }
        ensures following { result ≡ None → is_following self.now.machine.held ≡ true }
    {
        let stopped = self.store.is_broken();
        if stopped {
            return Some(Fault::Stopped);
        }
        if self.store.is_recovering() {
            return Some(Fault::Recovering);
        }
        if !self.store.is_following() {
            return Some(Fault::Sealed);
        }
        if let Some(fault) = self.refused {
            return Some(fault);
        }
        if self.store.pending() >= self.limit {
            return Some(Fault::Backlog);
        }
        None
    }

    /// What a key has now and who holds it, where the log is not sealed.
    fn own_key(&self, key: Key) -> Result<KeyNow, Fault>
        requires { is_following self.now.machine.held ≡ true }
        ensures { AnswersKeyNow self.now.machine key result }
    {
        match self.store.key_now(key) {
            Some(told) => Ok(told),
            None => Err(Fault::BadKey),
        }
    }

    /// What a key has now, with what open transactions wrote there, and the open transaction that
    /// holds it: what an update of the key has to know. The faults are those by which a feed is
    /// refused whatever it brings, in their order; then BadKey: the database has no such key.
    pub fn key_now(&self, key: Key) -> Result<KeyNow, Fault>
        ensures { TellsKeyNow self.now.machine key result }
    {
        match self.refused_feed() {
            Some(fault) => Err(fault),
            None => self.own_key(key),
        }
    }

    /// What a writer has to know of the log before it writes.
    pub fn writing(&self) -> WritingNow
        ensures { TellsOfWriting self.now.machine.held result }
    {
        self.store.writing()
    }

    /// The next record that is owed to the log, `None` exactly where none is. It is made from
    /// memory, however old its transaction is. Sealed: the log was sealed.
    pub fn next_of_tail(&self) -> Result<Option<Record>, Fault>
        ensures { TellsNextOwed self.now.machine result }
    {
        if !self.store.is_following() {
            return Err(Fault::Sealed);
        }
        Ok(self.store.next_of_tail())
    }
}
