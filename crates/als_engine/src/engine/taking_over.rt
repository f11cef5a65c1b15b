ghost use Rattle.std.specs.Prelude.{◌≡◌, IsErrOf};
ghost use Rattle.als_engine.specs.declared.event.Event.TheVariants as event;
ghost use Rattle.als_engine.specs.Machine.{Keeps};
ghost use Rattle.als_engine.specs.Takeover.{Seals, UndoesOneOf, Finishes};
ghost use Rattle.als_store.specs.Takeover.{HasRoomToUndo};
ghost use Rattle.als_engine.specs.Tally.{TellsOk};

use super::Engine;
use crate::event::Event;
use crate::fault::Fault;
use als_disk::BlockDisk;
use als_receiver::Receiver;
use als_record::Lsn;
use als_view::a_view_goes_on;

impl<D: BlockDisk> Engine<D> {
    /// Seals the log: writes the control block with phase Sealed, with the log's end as its mark
    /// and its seal, and with the history that goes on with this seal, drops the partial record, and
    /// takes no more of the source. It makes one write of a device, takes no memory and no room of
    /// the log.
    ///
    /// Stopped. Recovering: it is not ready yet. Sealed: the log was sealed before. EpochsSpent: the
    /// history has room for no more seals. LogBehind: the log is not synced to its end, or ends
    /// below the last seal of the history. Device: the write failed, and the engine has stopped. They
    /// come in this order.
    pub fn seal(&mut self) -> Result<(), Fault>
        ensures seals { Seals self.old.machine result self.new.machine }
        ensures keeps { Keeps self.old.machine self.new.machine }
        ensures told { TellsOk event.Seal result self.old.tally self.new.tally }
        ensures book { self.new.book ≡ self.old.book }
    {
        let answer = self.seal_in();
        self.note(Event::Seal, &answer);
        answer
    }

    /// The event itself: what it keeps follows at the public call.
    fn seal_in(&mut self) -> Result<(), Fault>
        ensures seals { Seals self.old.machine result self.new.machine }
        ensures told { self.new.tally ≡ self.old.tally }
        ensures book { self.new.book ≡ self.old.book }
    {
        if self.store.is_broken() {
            return Err(Fault::Stopped);
        }
        if self.store.is_recovering() {
            return Err(Fault::Recovering);
        }
        if !self.store.is_following() {
            return Err(Fault::Sealed);
        }
        let history = self.store.history();
        if history.is_full() {
            return Err(Fault::EpochsSpent);
        }
        if self.store.synced().0 < self.store.end().0 {
            return Err(Fault::LogBehind);
        }
        if self.store.end().0 < history.last().0 {
            return Err(Fault::LogBehind);
        }
        self.store.seal()?;
        self.receiver.drop_partial();
        self.refused = None;
        Ok(())
    }

    /// Holds the next record of the sealed log's tail, and answers its LSN: an end, or the
    /// compensation of the newest surviving update of all losers. The log device has room for the
    /// whole tail.
    ///
    /// Stopped. Recovering: it is not ready yet. NotSealed: the log was not sealed. NothingToDo:
    /// nothing of the tail is left to append. Device: the log device failed in a read; nothing but
    /// the count of failures has changed. Memory: an allocation failed; nothing has changed. They
    /// come in this order.
    pub fn undo_one(&mut self) -> Result<Lsn, Fault>
        ensures undoes { UndoesOneOf self.old.machine result self.new.machine }
        ensures reserved { HasRoomToUndo self.old.machine.held self.old.spare
            → IsErrOf result Fault.Memory → ⊥ }
        ensures keeps { Keeps self.old.machine self.new.machine }
        ensures told { TellsOk event.UndoOne result self.old.tally self.new.tally }
        ensures book { self.new.book ≡ self.old.book }
    {
        let answer = self.undo_one_in();
        self.note(Event::UndoOne, &answer);
        answer
    }

    /// The event itself: what it keeps follows at the public call.
    fn undo_one_in(&mut self) -> Result<Lsn, Fault>
        ensures undoes { UndoesOneOf self.old.machine result self.new.machine }
        ensures reserved { HasRoomToUndo self.old.machine.held self.old.spare
            → IsErrOf result Fault.Memory → ⊥ }
        ensures told { self.new.tally ≡ self.old.tally }
        ensures book { self.new.book ≡ self.old.book }
    {
        if self.store.is_broken() {
            return Err(Fault::Stopped);
        }
        if self.store.is_recovering() {
            return Err(Fault::Recovering);
        }
        if self.store.is_following() {
            return Err(Fault::NotSealed);
        }
        if !self.store.has_tail() {
            return Err(Fault::NothingToDo);
        }
        let lsn = self.store.undo_one()?;
        a_view_goes_on();
        self.receiver = Receiver::new(self.alloc, self.store.end(), self.store.pages());
        Ok(lsn)
    }

    /// Ends the takeover: writes the control block with phase Primary, by one write of a device. It
    /// takes no memory and no room of the log.
    ///
    /// Stopped. Recovering: it is not ready yet. NotSealed: the log was not sealed. NothingToDo:
    /// the takeover is done. NotDrained: something of the tail is left to append, a change waits for
    /// redo, or the log is not acknowledged to its end. Device: the write failed, and the engine has stopped.
    /// They come in this order.
    pub fn finish(&mut self) -> Result<(), Fault>
        ensures finishes { Finishes self.old.machine result self.new.machine }
        ensures keeps { Keeps self.old.machine self.new.machine }
        ensures told { TellsOk event.Finish result self.old.tally self.new.tally }
        ensures book { self.new.book ≡ self.old.book }
    {
        let answer = self.finish_in();
        self.note(Event::Finish, &answer);
        answer
    }

    /// The event itself: what it keeps follows at the public call.
    fn finish_in(&mut self) -> Result<(), Fault>
        ensures finishes { Finishes self.old.machine result self.new.machine }
        ensures told { self.new.tally ≡ self.old.tally }
        ensures book { self.new.book ≡ self.old.book }
    {
        if self.store.is_broken() {
            return Err(Fault::Stopped);
        }
        if self.store.is_recovering() {
            return Err(Fault::Recovering);
        }
        if self.store.is_following() {
            return Err(Fault::NotSealed);
        }
        if self.store.is_primary() {
            return Err(Fault::NothingToDo);
        }
        if !self.store.is_drained() {
            return Err(Fault::NotDrained);
        }
        self.store.finish()?;
        Ok(())
    }
}
