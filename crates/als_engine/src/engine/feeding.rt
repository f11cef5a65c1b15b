ghost use Rattle.std.specs.Prelude.{◌≡◌, ◌≤◌, ◌+◌, length, IfErr, OnOk};
ghost use Rattle.als_engine.specs.declared.event.Event.TheVariants as event;
ghost use Rattle.als_engine.specs.Events.{Resyncs};
ghost use Rattle.als_engine.specs.Feeds.{Feeds, kept_fault};
ghost use Rattle.als_engine.specs.Machine.{Keeps};
ghost use Rattle.als_engine.specs.Refusals.{feed_refusal};
ghost use Rattle.als_engine.specs.Serving.{HasRoomForPiece};
ghost use Rattle.als_engine.specs.Tally.{TellsOk, TellsTaken};

use super::Engine;
use crate::event::Event;
use crate::fault::Fault;
use crate::fed::{Fed, FeedFault};
use crate::taking_in::take_piece;
use als_disk::BlockDisk;
use als_receiver::Receiver;

impl<D: BlockDisk> Engine<D> {
    /// Takes a piece of the primary's log: each record that is whole now goes into the held log,
    /// and the rest waits as a partial record. Stopped is answered first, then Recovering before
    /// `ready`, then Sealed of a log that was sealed, then in Refusing the kept fault, then Backlog
    /// where the pending changes have reached the limit: then nothing is taken. After another fault
    /// the whole records in front of it are held and no partial record is kept; a fault of the
    /// record (2 to 16) is kept, LogFull and Memory are not. Memory does not come where there is
    /// room for the piece.
    pub fn feed(&mut self, piece: &[u8]) -> Result<Fed, FeedFault>
        ensures feeds { Feeds self.old.machine piece.now (feed_refusal self.old.machine)
            result self.new.machine }
        // Where there is room for the piece, memory is not wanted.
        ensures reserved { HasRoomForPiece self.old piece.now
            → IfErr result (λ refusal. refusal.fault ≡ Fault.Memory → ⊥) }
        ensures keeps { Keeps self.old.machine self.new.machine }
        // The bytes taken are counted.
        ensures told { TellsTaken result self.old.tally self.new.tally }
        ensures book { self.new.book ≡ self.old.book }
    {
        let answer = self.feed_in(piece);
        self.note_taken(&answer);
        answer
    }

    /// The event itself: what it keeps follows at the public call.
    fn feed_in(&mut self, piece: &[u8]) -> Result<Fed, FeedFault>
        ensures feeds { Feeds self.old.machine piece.now (feed_refusal self.old.machine)
            result self.new.machine }
        // Where there is room for the piece, memory is not wanted.
        ensures reserved { HasRoomForPiece self.old piece.now
            → IfErr result (λ refusal. refusal.fault ≡ Fault.Memory → ⊥) }
        ensures told { self.new.tally ≡ self.old.tally }
        ensures book { self.new.book ≡ self.old.book }
    {
        let stopped = self.store.is_broken();
        if stopped {
            return Err(refused_whole(Fault::Stopped));
        }
        if self.store.is_recovering() {
            return Err(refused_whole(Fault::Recovering));
        }
        if !self.store.is_following() {
            return Err(refused_whole(Fault::Sealed));
        }
        if let Some(fault) = self.refused {
            return Err(refused_whole(fault));
        }
        if self.store.pending() >= self.limit {
            return Err(refused_whole(Fault::Backlog));
        }
        let end = self.store.end().0;
        let records = self.store.len();
        let partial = self.receiver.partial();
        match take_piece(
            self.alloc,
            &mut self.store,
            &mut self.receiver,
            &mut self.shown,
            piece,
        ) {
            Ok(()) => Ok(Fed {
                taken: piece.len(),
                records: self.store.len() - records,
            }),
            Err(fault) => {
                let held_bytes = (self.store.end().0 - end) as usize;
                self.receiver = Receiver::new(self.alloc, self.store.end(), self.store.pages());
                self.refused = kept(fault);
                Err(FeedFault {
                    taken: held_bytes.saturating_sub(partial),
                    records: self.store.len() - records,
                    fault,
                })
            }
        }
    }

    /// Drops the partial record, and takes the log again after a refusal. Stopped, then Recovering
    /// before `ready`, and then Sealed of a log that was sealed, change nothing.
    pub fn resync(&mut self) -> Result<(), Fault>
        ensures resyncs { Resyncs self.old.machine result self.new.machine }
        // The room of the bytes that were dropped is free again.
        ensures room { OnOk result
            (self.old.room + length self.old.machine.partial ≤ self.new.room) }
        ensures keeps { Keeps self.old.machine self.new.machine }
        ensures told { TellsOk event.Resync result self.old.tally self.new.tally }
        ensures book { self.new.book ≡ self.old.book }
    {
        let answer = self.resync_in();
        self.note(Event::Resync, &answer);
        answer
    }

    /// The event itself: what it keeps follows at the public call.
    fn resync_in(&mut self) -> Result<(), Fault>
        ensures resyncs { Resyncs self.old.machine result self.new.machine }
        // The room of the bytes that were dropped is free again.
        ensures room { OnOk result
            (self.old.room + length self.old.machine.partial ≤ self.new.room) }
        ensures told { self.new.tally ≡ self.old.tally }
        ensures book { self.new.book ≡ self.old.book }
    {
        if self.store.is_broken() {
            return Err(Fault::Stopped);
        }
        if self.store.is_recovering() {
            return Err(Fault::Recovering);
        }
        if !self.store.is_following() {
            return Err(Fault::Sealed);
        }
        self.receiver.drop_partial();
        self.refused = None; // What is fed next is looked at.
        Ok(())
    }
}

/// A refusal that takes nothing.
fn refused_whole(fault: Fault) -> FeedFault
    ensures { result ≡ record { taken = 0; records = 0; fault = fault } }
{
    FeedFault {
        taken: 0,
        records: 0,
        fault,
    }
}

/// The fault that an engine keeps: want of room and of memory are not kept.
fn kept(fault: Fault) -> Option<Fault>
    ensures { result ≡ kept_fault fault }
{
    match fault {
        Fault::LogFull | Fault::Memory => None,
        fault => Some(fault),
    }
}
