ghost use Rattle.std.specs.Prelude.{◌≡◌, ◌<◌, OnOk};
ghost use Rattle.std.specs.Result.{IsErrOf};
ghost use Rattle.als_engine.specs.declared.event.Event.TheVariants as event;
ghost use Rattle.als_engine.specs.Leases.{Lends, Gives, Recalls};
ghost use Rattle.als_engine.specs.Machine.{Keeps};
ghost use Rattle.als_engine.specs.Tally.{TellsOk};
ghost use Rattle.als_store.specs.Spare.{KeepsRoom};

use super::Engine;
use crate::event::Event;
use crate::fault::Fault;
use crate::not_given::NotGiven;
use als_disk::BlockDisk;
use als_lease::PageLease;

impl<D: BlockDisk> Engine<D> {
    /// Lends a page with the first changes that wait for it, at most 64: the lease redoes them with
    /// no engine, and `give` takes it in. A page that has no frame is read into one; what it has
    /// already waits no more. Until then or until `recall` the page has no other lease, is not
    /// written and keeps its frame.
    ///
    /// Stopped. PageLent: a lease of the page is out. NothingToDo: no change waits for it, or there
    /// is no such page. NumbersSpent: the last lease number is used. PoolFull: the page has no
    /// frame, all frames are used, and each is lent or not clean. Device: it could not be read.
    /// BadPage: its block has no image of it that is the log's. Memory: an allocation failed. They
    /// come in this order. Then again NothingToDo: the page that was read has all that waited.
    pub fn lend(&mut self, page: u32) -> Result<PageLease, Fault>
        ensures lends { Lends self.old.machine page result self.new.machine }
        ensures keeps { Keeps self.old.machine self.new.machine }
        ensures attempts { self.new.machine.held.attempts ≡ self.old.machine.held.attempts }
        // Memory is wanted only where there is no room for a frame more, or for a lease more.
        ensures reserved { 0 < self.old.spare.pool.frames → 0 < self.old.spare.pool.leases
            → IsErrOf result Fault.Memory → ⊥ }
        ensures told { TellsOk event.Lend result self.old.tally self.new.tally }
        ensures book { self.new.book ≡ self.old.book }
    {
        let answer = self.lend_in(page);
        self.note(Event::Lend, &answer);
        answer
    }

    /// The event itself: what it keeps follows at the public call.
    fn lend_in(&mut self, page: u32) -> Result<PageLease, Fault>
        ensures lends { Lends self.old.machine page result self.new.machine }
        ensures reserved { 0 < self.old.spare.pool.frames → 0 < self.old.spare.pool.leases
            → IsErrOf result Fault.Memory → ⊥ }
        ensures told { self.new.tally ≡ self.old.tally }
        ensures book { self.new.book ≡ self.old.book }
    {
        if self.store.is_broken() {
            return Err(Fault::Stopped);
        }
        let lease = self.store.lend(page)?;
        Ok(lease)
    }

    /// Takes a lease in: its page becomes the lease's working page, and the changes that the lease
    /// has redone wait no more. The others wait on. It takes no memory and calls no device. On a
    /// refusal the lease comes back, and nothing changes.
    ///
    /// Stopped. Stranger: it is not the lease that is out for its page, by its number, its base or
    /// its batch. They come in this order.
    pub fn give(&mut self, lease: PageLease) -> Result<(), NotGiven>
        ensures gives { Gives self.old.machine lease result self.new.machine }
        ensures keeps { Keeps self.old.machine self.new.machine }
        ensures attempts { self.new.machine.held.attempts ≡ self.old.machine.held.attempts }
        // What the lease took is room for another one.
        ensures room { OnOk result (KeepsRoom self.old.spare self.new.spare) }
        ensures told { TellsOk event.Give result self.old.tally self.new.tally }
        ensures book { self.new.book ≡ self.old.book }
    {
        let answer = self.give_in(lease);
        self.note(Event::Give, &answer);
        answer
    }

    /// The event itself: what it keeps follows at the public call.
    fn give_in(&mut self, lease: PageLease) -> Result<(), NotGiven>
        ensures gives { Gives self.old.machine lease result self.new.machine }
        ensures room { OnOk result (KeepsRoom self.old.spare self.new.spare) }
        ensures told { self.new.tally ≡ self.old.tally }
        ensures book { self.new.book ≡ self.old.book }
    {
        if self.store.is_broken() {
            return Err(not_given(lease, Fault::Stopped));
        }
        match self.store.give(lease) {
            Ok(()) => Ok(()),
            Err(lease) => Err(not_given(lease, Fault::Stranger)),
        }
    }

    /// Ends the lease of a page: from now on it is a stranger. Its page stays as it was lent, and
    /// all its changes wait on. It takes no memory and calls no device.
    ///
    /// Stopped. NothingToDo: no lease of the page is out. They come in this order.
    pub fn recall(&mut self, page: u32) -> Result<(), Fault>
        ensures recalls { Recalls self.old.machine page result self.new.machine }
        ensures keeps { Keeps self.old.machine self.new.machine }
        ensures attempts { self.new.machine.held.attempts ≡ self.old.machine.held.attempts }
        ensures told { TellsOk event.Recall result self.old.tally self.new.tally }
        ensures book { self.new.book ≡ self.old.book }
    {
        let answer = self.recall_in(page);
        self.note(Event::Recall, &answer);
        answer
    }

    /// The event itself: what it keeps follows at the public call.
    fn recall_in(&mut self, page: u32) -> Result<(), Fault>
        ensures recalls { Recalls self.old.machine page result self.new.machine }
        ensures told { self.new.tally ≡ self.old.tally }
        ensures book { self.new.book ≡ self.old.book }
    {
        if self.store.is_broken() {
            return Err(Fault::Stopped);
        }
        self.store.recall(page)?;
        Ok(())
    }
}

/// A lease with the fault by which it comes back.
fn not_given(lease: PageLease, fault: Fault) -> NotGiven
    ensures { (result.lease ≡ lease) × (result.fault ≡ fault) }
{
    NotGiven { lease, fault }
}
