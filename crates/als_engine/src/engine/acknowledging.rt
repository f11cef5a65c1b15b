ghost use Rattle.std.specs.Prelude.{◌≡◌};
ghost use Rattle.als_engine.specs.declared.event.Event.TheVariants as event;
ghost use Rattle.als_engine.specs.Events.{LogWrites, LogSyncs, MarkWrites, ControlSyncs};
ghost use Rattle.als_engine.specs.Machine.{Keeps};
ghost use Rattle.als_store.specs.Takeover.{GoesOn};
ghost use Rattle.als_engine.specs.Tally.{TellsOk};

use super::Engine;
use crate::event::Event;
use crate::fault::Fault;
use als_disk::BlockDisk;
use als_record::Lsn;
use als_view::a_view_goes_on;

impl<D: BlockDisk> Engine<D> {
    /// Writes the first block of the log with unwritten bytes: it makes one write of a device.
    /// NothingToDo: there is none. Device: the write failed, and the engine has stopped.
    pub fn log_write(&mut self) -> Result<(), Fault>
        ensures writes { LogWrites self.old.machine result self.new.machine }
        ensures keeps { Keeps self.old.machine self.new.machine }
        ensures told { TellsOk event.LogWrite result self.old.tally self.new.tally }
        ensures book { self.new.book ≡ self.old.book }
    {
        let answer = self.log_write_in();
        self.note(Event::LogWrite, &answer);
        answer
    }

    /// The event itself: what it keeps follows at the public call.
    fn log_write_in(&mut self) -> Result<(), Fault>
        ensures writes { LogWrites self.old.machine result self.new.machine }
        ensures told { self.new.tally ≡ self.old.tally }
        ensures book { self.new.book ≡ self.old.book }
    {
        if self.store.is_broken() {
            return Err(Fault::Stopped);
        }
        self.store.log_write()?;
        Ok(())
    }

    /// Syncs the log: it makes one sync of a device. Device: the sync failed, and the engine has
    /// stopped.
    pub fn log_sync(&mut self) -> Result<(), Fault>
        ensures syncs { LogSyncs self.old.machine result self.new.machine }
        ensures keeps { Keeps self.old.machine self.new.machine }
        ensures told { TellsOk event.LogSync result self.old.tally self.new.tally }
        ensures book { self.new.book ≡ self.old.book }
    {
        let answer = self.log_sync_in();
        self.note(Event::LogSync, &answer);
        answer
    }

    /// The event itself: what it keeps follows at the public call.
    fn log_sync_in(&mut self) -> Result<(), Fault>
        ensures syncs { LogSyncs self.old.machine result self.new.machine }
        ensures told { self.new.tally ≡ self.old.tally }
        ensures book { self.new.book ≡ self.old.book }
    {
        if self.store.is_broken() {
            return Err(Fault::Stopped);
        }
        self.store.log_sync()?;
        Ok(())
    }

    /// Writes the control block with the log's synced end as its mark: it makes one write of a
    /// device. NothingToDo: the last mark written is not below it. Device: the write failed, and
    /// the engine has stopped.
    pub fn mark_write(&mut self) -> Result<(), Fault>
        ensures writes { MarkWrites self.old.machine result self.new.machine }
        ensures keeps { Keeps self.old.machine self.new.machine }
        ensures told { TellsOk event.MarkWrite result self.old.tally self.new.tally }
        ensures book { self.new.book ≡ self.old.book }
    {
        let answer = self.mark_write_in();
        self.note(Event::MarkWrite, &answer);
        answer
    }

    /// The event itself: what it keeps follows at the public call.
    fn mark_write_in(&mut self) -> Result<(), Fault>
        ensures writes { MarkWrites self.old.machine result self.new.machine }
        ensures told { self.new.tally ≡ self.old.tally }
        ensures book { self.new.book ≡ self.old.book }
    {
        if self.store.is_broken() {
            return Err(Fault::Stopped);
        }
        self.store.mark_write()?;
        Ok(())
    }

    /// Syncs the control block, and answers its mark: the acknowledged LSN from now on. It makes
    /// one sync of a device. Device: the sync failed, and the engine has stopped.
    pub fn ctl_sync(&mut self) -> Result<Lsn, Fault>
        ensures syncs { ControlSyncs self.old.machine result self.new.machine }
        // Of the synced states the phase never falls, and past Following the seal stays.
        ensures goes_on { GoesOn self.old.machine.held.control self.new.machine.held.control }
        ensures keeps { Keeps self.old.machine self.new.machine }
        ensures told { TellsOk event.ControlSync result self.old.tally self.new.tally }
        ensures book { self.new.book ≡ self.old.book }
    {
        // For the prover alone: what always holds of the engine.
        let _ = &self.limit;
        let _ = self.store.history();
        let answer = self.ctl_sync_in();
        self.note(Event::ControlSync, &answer);
        answer
    }

    /// The event itself: what it keeps follows at the public call.
    fn ctl_sync_in(&mut self) -> Result<Lsn, Fault>
        ensures syncs { ControlSyncs self.old.machine result self.new.machine }
        // Of the synced states the phase never falls, and past Following the seal stays.
        ensures goes_on { GoesOn self.old.machine.held.control self.new.machine.held.control }
        ensures told { self.new.tally ≡ self.old.tally }
        ensures book { self.new.book ≡ self.old.book }
    {
        if self.store.is_broken() {
            return Err(Fault::Stopped);
        }
        let acknowledged = self.store.ctl_sync()?;
        a_view_goes_on();
        Ok(acknowledged)
    }
}
