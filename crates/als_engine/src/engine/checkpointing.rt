ghost use Rattle.std.specs.Prelude.{◌≡◌};
ghost use Rattle.als_engine.specs.declared.event.Event.TheVariants as event;
ghost use Rattle.als_engine.specs.Checkpointing.{CkptBegins, CkptWrites, CkptPublishes};
ghost use Rattle.als_engine.specs.Machine.{Keeps};
ghost use Rattle.als_engine.specs.Tally.{TellsOk};

use super::Engine;
use crate::event::Event;
use crate::fault::Fault;
use als_disk::BlockDisk;

impl<D: BlockDisk> Engine<D> {
    /// Begins a checkpoint: copies both tables, the numbers and the end of the log as they are now.
    /// CkptBusy: one is begun, or the last publish is not synced. Memory: an allocation failed.
    pub fn ckpt_begin(&mut self) -> Result<(), Fault>
        ensures begins { CkptBegins self.old.machine result self.new.machine }
        ensures keeps { Keeps self.old.machine self.new.machine }
        ensures told { TellsOk event.CkptBegin result self.old.tally self.new.tally }
        ensures book { self.new.book ≡ self.old.book }
    {
        let answer = self.ckpt_begin_in();
        self.note(Event::CkptBegin, &answer);
        answer
    }

    /// The event itself: what it keeps follows at the public call.
    fn ckpt_begin_in(&mut self) -> Result<(), Fault>
        ensures begins { CkptBegins self.old.machine result self.new.machine }
        ensures told { self.new.tally ≡ self.old.tally }
        ensures book { self.new.book ≡ self.old.book }
    {
        if self.store.is_broken() {
            return Err(Fault::Stopped);
        }
        self.store.ckpt_begin(self.alloc)?;
        Ok(())
    }

    /// Writes the next block of the checkpoint that is begun: it makes one write of a device.
    /// NothingToDo: none is begun, or each block is written. Device: the write failed, and the
    /// engine has stopped.
    pub fn ckpt_block(&mut self) -> Result<(), Fault>
        ensures writes { CkptWrites self.old.machine result self.new.machine }
        ensures keeps { Keeps self.old.machine self.new.machine }
        ensures told { TellsOk event.CkptBlock result self.old.tally self.new.tally }
        ensures book { self.new.book ≡ self.old.book }
    {
        let answer = self.ckpt_block_in();
        self.note(Event::CkptBlock, &answer);
        answer
    }

    /// The event itself: what it keeps follows at the public call.
    fn ckpt_block_in(&mut self) -> Result<(), Fault>
        ensures writes { CkptWrites self.old.machine result self.new.machine }
        ensures told { self.new.tally ≡ self.old.tally }
        ensures book { self.new.book ≡ self.old.book }
    {
        if self.store.is_broken() {
            return Err(Fault::Stopped);
        }
        self.store.ckpt_block()?;
        Ok(())
    }

    /// Publishes the checkpoint that is begun: it makes one write of a device. NothingToDo: none is
    /// begun. CkptBusy: a block of it is not written and synced. LogBehind: its position is above
    /// the acknowledged LSN. Device: the write failed, and the engine has stopped.
    pub fn ckpt_publish(&mut self) -> Result<(), Fault>
        ensures publishes { CkptPublishes self.old.machine result self.new.machine }
        ensures keeps { Keeps self.old.machine self.new.machine }
        ensures told { TellsOk event.CkptPublish result self.old.tally self.new.tally }
        ensures book { self.new.book ≡ self.old.book }
    {
        let answer = self.ckpt_publish_in();
        self.note(Event::CkptPublish, &answer);
        answer
    }

    /// The event itself: what it keeps follows at the public call.
    fn ckpt_publish_in(&mut self) -> Result<(), Fault>
        ensures publishes { CkptPublishes self.old.machine result self.new.machine }
        ensures told { self.new.tally ≡ self.old.tally }
        ensures book { self.new.book ≡ self.old.book }
    {
        if self.store.is_broken() {
            return Err(Fault::Stopped);
        }
        self.store.ckpt_publish()?;
        Ok(())
    }
}
