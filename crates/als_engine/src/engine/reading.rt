ghost use Rattle.std.specs.Prelude.{◌≡◌};
ghost use Rattle.als_engine.specs.declared.event.Event.TheVariants as event;
ghost use Rattle.als_engine.specs.Machine.{Keeps};
ghost use Rattle.als_view.specs.Views.{IsSameReader};
ghost use Rattle.als_engine.specs.Publishing.{PublishesView, ReadsKey, TellsReaders};
ghost use Rattle.als_engine.specs.Readers.{IsReader, book_told};
ghost use Rattle.als_engine.specs.Tally.{TellsOk};

use super::Engine;
use crate::event::Event;
use crate::fault::Fault;
use als_disk::BlockDisk;
use als_record::Key;
use als_view::{Answer, Fault as ReaderFault, Reader, Told, shown_commits_may_be_published};
use std::sync::Wait;

impl<D: BlockDisk> Engine<D> {
    /// Publishes for readers the commits whose records end at or below the acknowledged LSN, all at
    /// once. It calls no device. It waits for readers that are still in the copy of before.
    ///
    /// Stopped. Recovering: it is not ready yet. NothingToDo: each of them is published. They come
    /// in this order. Memory: an allocation failed, and readers see what they saw.
    pub fn publish_view<R: Wait>(&mut self, rt: &R) -> Result<(), Fault>
        ensures publishes { PublishesView self.old.machine result self.new.machine }
        ensures keeps { Keeps self.old.machine self.new.machine }
        ensures told { TellsOk event.PublishView result self.old.tally self.new.tally }
        ensures book { self.new.book ≡ self.old.book }
    {
        let answer = self.publish_view_in(rt);
        self.note(Event::PublishView, &answer);
        answer
    }

    /// The event itself: what it keeps follows at the public call.
    fn publish_view_in<R: Wait>(&mut self, rt: &R) -> Result<(), Fault>
        ensures publishes { PublishesView self.old.machine result self.new.machine }
        ensures told { self.new.tally ≡ self.old.tally }
        ensures book { self.new.book ≡ self.old.book }
    {
        if self.store.is_broken() {
            return Err(Fault::Stopped);
        }
        if self.store.is_recovering() {
            return Err(Fault::Recovering);
        }
        // For the prover alone: what always holds of the log.
        let _ = self.store.end();
        let acknowledged = self.store.acknowledged();
        if !self.shown.has_more(acknowledged) {
            return Err(Fault::NothingToDo);
        }
        // For the prover alone: what the view shows may be published.
        shown_commits_may_be_published();
        match self.shown.publish_ended(rt, acknowledged) {
            Ok(()) => Ok(()),
            Err(_) => Err(Fault::Memory),
        }
    }

    /// The whole list of published commits, for any reader of this engine: once a reader has learnt
    /// it, its answers count each of them.
    pub fn tell(&self) -> Told
        ensures told { TellsReaders self.now.machine result }
        ensures book { book_told result ≡ self.now.book }
    {
        self.shown.tell()
    }

    /// What the published commits left at a key, how many they are, and the LSN of the last of
    /// them, 0 without one: one look-up, by a reader of this engine. A key outside the database has
    /// nothing. It answers in every state. Warming: the standby was opened and is not ready yet.
    /// Stopped: the entry of the reader was refused.
    pub fn read(&self, reader: &mut Reader, key: Key) -> Result<Answer, Fault>
        requires { IsReader self.now.book self.now.machine.held.pages reader.old }
        ensures reads { ReadsKey self.now.machine key result }
        ensures same { IsSameReader reader.old reader.new }
    {
        // For the prover alone: what always holds of the log.
        let _ = self.store.end();
        match self.shown.read(reader, key) {
            Ok(answer) => Ok(answer),
            Err(ReaderFault::Warming) => Err(Fault::Warming),
            Err(ReaderFault::Stopped) => Err(Fault::Stopped),
        }
    }
}
