ghost use Rattle.std.specs.Prelude.{◌≡◌};
ghost use Rattle.als_engine.specs.declared.event.Event.TheVariants as event;
ghost use Rattle.als_engine.specs.Events.{FlushesOne, PagesSync};
ghost use Rattle.als_engine.specs.Machine.{Keeps};
ghost use Rattle.als_engine.specs.Tally.{TellsOk};

use super::Engine;
use crate::event::Event;
use crate::fault::Fault;
use als_disk::BlockDisk;

impl<D: BlockDisk> Engine<D> {
    /// Writes a page to its block, if the log is acknowledged past its page_LSN: it makes one write
    /// of a device.
    ///
    /// Stopped. PageLent: a lease of the page is out. NothingToDo: the page has no frame, or it is
    /// the image last written. LogBehind: its page_LSN is not below the acknowledged LSN. Device:
    /// the write failed, and the engine has stopped. They come in this order.
    pub fn flush(&mut self, page: u32) -> Result<(), Fault>
        ensures flushes { FlushesOne self.old.machine page result self.new.machine }
        ensures keeps { Keeps self.old.machine self.new.machine }
        ensures told { TellsOk event.Flush result self.old.tally self.new.tally }
        ensures book { self.new.book ≡ self.old.book }
    {
        let answer = self.flush_in(page);
        self.note(Event::Flush, &answer);
        answer
    }

    /// The event itself: what it keeps follows at the public call.
    fn flush_in(&mut self, page: u32) -> Result<(), Fault>
        ensures flushes { FlushesOne self.old.machine page result self.new.machine }
        ensures told { self.new.tally ≡ self.old.tally }
        ensures book { self.new.book ≡ self.old.book }
    {
        if self.store.is_broken() {
            return Err(Fault::Stopped);
        }
        self.store.flush(page)?;
        Ok(())
    }

    /// Syncs the pages' device, by one sync: the rows of the dirty page table move. Device: the
    /// sync failed, and the engine has stopped.
    pub fn sync_pages(&mut self) -> Result<(), Fault>
        ensures syncs { PagesSync self.old.machine result self.new.machine }
        ensures keeps { Keeps self.old.machine self.new.machine }
        ensures told { TellsOk event.SyncPages result self.old.tally self.new.tally }
        ensures book { self.new.book ≡ self.old.book }
    {
        let answer = self.sync_pages_in();
        self.note(Event::SyncPages, &answer);
        answer
    }

    /// The event itself: what it keeps follows at the public call.
    fn sync_pages_in(&mut self) -> Result<(), Fault>
        ensures syncs { PagesSync self.old.machine result self.new.machine }
        ensures told { self.new.tally ≡ self.old.tally }
        ensures book { self.new.book ≡ self.old.book }
    {
        if self.store.is_broken() {
            return Err(Fault::Stopped);
        }
        self.store.sync_pages()?;
        Ok(())
    }
}
