ghost use Rattle.std.specs.Prelude.{◌≡◌, ◌↔◌, ◌<◌, false, length, IsOk, IfOk, IfErr, OnOk};
ghost use Rattle.std.specs.Result.{IsErrOf};
ghost use Rattle.als_dirty.specs.Rows.{IsNextRow};
ghost use Rattle.als_page.specs.Page.{id_of, state_of};
ghost use Rattle.als_pool.specs.Outcomes.{IsOutstanding, IsPageNow};
ghost use Rattle.als_pool.specs.Pooled.{leases_of};
ghost use Rattle.als_pool.specs.Queues.{WaitsFirst};
ghost use Rattle.als_store.specs.declared.fault.Fault.TheVariants as fault;
ghost use Rattle.als_store.specs.Events.{LendsPage, NotLent, GivesBack, RecallsPage, NotRecalled};
ghost use Rattle.als_store.specs.Events.{FlushesPage, NotFlushed};
ghost use Rattle.als_store.specs.Events.{SyncsDevice, BreaksSync, NotShown};
ghost use Rattle.als_store.specs.Spare.{KeepsRoom};
ghost use Rattle.als_store.specs.Stored.{pending_of, IsShown};
ghost use Rattle.als_store.specs.Views.{ShowsLend, ShowsGive, ShowsWrite, ShowsSync};
ghost use Rattle.als_store.specs.Warm.{WasWarm};

use super::Store;
use crate::fault::Fault;
use als_disk::BlockDisk;
use als_lease::PageLease;
use als_page::Page;
use als_pool::{Fault as PoolFault, leases_wait};
use als_record::LoggedPage;

impl<D: BlockDisk> Store<D> {
    /// Lends a page for redo outside the store: its base, and the first changes that wait for it, at
    /// most 64. A page that has no frame is read into one; the changes that it has already no
    /// longer wait, and its row becomes exact. Until the lease is given back or recalled the page
    /// stays as it is, in its frame, and is not written.
    ///
    /// PageLent: it is lent. NothingToDo: no change waits, or there is no such page. NumbersSpent:
    /// no lease number is left. PoolFull: the page has no frame, all frames are used and none is
    /// free. Device: it could not be read. BadPage: its block has no image of it with a page_LSN
    /// below the log's end, which never comes where the devices were sound when the store was made.
    /// Memory: none for its frame or for the lease. They come in this order. Then again
    /// NothingToDo: the page that was read has all that waited, which waits no more. Only an `Ok`
    /// uses a lease number.
    pub fn lend(&mut self, page: u32) -> Result<PageLease, Fault>
        ensures ok { IfOk result (λ lease. LendsPage self.old.stored page lease self.new.stored) }
        ensures err { IfErr result (λ f. NotLent self.old.stored page f self.new.stored) }
        ensures views { WasWarm self.old.stored
            → IfOk result (λ lease. ShowsLend self.old.stored.log self.old.stored.pool page lease
            self.new.stored.pool) }
        ensures sound { WasWarm self.old.stored → IfErr result (λ f. f ≡ fault.BadPage page → ⊥) }
        // Memory is wanted only where there is no room for a frame more, or for a lease more.
        ensures reserved { 0 < self.old.spare.pool.frames → 0 < self.old.spare.pool.leases
            → IsErrOf result fault.Memory → ⊥ }
    {
        let end = self.log.end();
        let lease = self.pool.lend(page, end)?;
        Ok(lease)
    }

    /// Takes a lease back: its page becomes the working image, and the changes that the lease has
    /// done wait no more. It takes no memory.
    ///
    /// An `Err` is the lease itself, where it is not the one that is out for its page; nothing
    /// changed.
    pub fn give(&mut self, lease: PageLease) -> Result<(), PageLease>
        ensures exact { IsOk result ↔ IsOutstanding self.old.stored.pool lease }
        ensures ok { OnOk result (GivesBack self.old.stored lease self.new.stored) }
        ensures err { IfErr result (λ back. (back ≡ lease) × (self.new ≡ self.old)) }
        // The room stays, and what the lease took is room for another.
        ensures room { OnOk result (KeepsRoom self.old.spare self.new.spare) }
        ensures views { WasWarm self.old.stored
            → OnOk result (ShowsGive self.old.stored.log self.old.stored.pool lease
            self.new.stored.pool) }
    {
        match self.pool.give(lease) {
            Ok(()) => Ok(()),
            Err(lease) => Err(lease),
        }
    }

    /// Recalls the lease of a page: the page is lent no more, all that waited for it still waits,
    /// and the lease is not taken back any more.
    ///
    /// NothingToDo: the page is not lent, or there is no such page; nothing changed.
    pub fn recall(&mut self, page: u32) -> Result<(), Fault>
        ensures ok { OnOk result (RecallsPage self.old.stored page self.new.stored) }
        ensures err { IfErr result (λ f. NotRecalled self.old.stored page f self.new.stored) }
        ensures same { self.new.spare ≡ self.old.spare }
    {
        self.pool.recall(page)?;
        Ok(())
    }

    /// How many leases are out.
    pub fn leases(&self) -> usize
        ensures leases { result ≡ leases_of self.now.stored.pool }
        // A page is lent only while changes wait for it.
        ensures none { pending_of self.now.stored ≡ 0 → leases_of self.now.stored.pool ≡ 0 }
    {
        leases_wait();
        self.pool.leases()
    }

    /// Writes a page to its block, if the log is acknowledged past its page_LSN: one write of the
    /// pages' device.
    ///
    /// PageLent: the page is lent. NothingToDo: it has no frame, or it is the image last written. LogBehind: its page_LSN
    /// is not below the acknowledged LSN. Device: the write has failed.
    pub fn flush(&mut self, page: u32) -> Result<(), Fault>
        requires { self.old.stored.broken ≡ false }
        ensures ok { OnOk result (FlushesPage self.old.stored page self.new.stored) }
        ensures err { IfErr result (λ f. NotFlushed self.old.stored page f self.new.stored) }
        ensures views { OnOk result (ShowsWrite self.old.stored.pool self.new.stored.pool page) }
    {
        let acknowledged = self.control.acknowledged();
        match self.pool.flush_one(page, acknowledged) {
            Ok(()) => Ok(()),
            Err(PoolFault::Device) => {
                self.broken = true;
                Err(Fault::Device)
            }
            Err(fault) => Err(Fault::from(fault)),
        }
    }

    /// Syncs the pages' device, by one sync: of each page the image last written is then the one
    /// last synced, and the rows move.
    pub fn sync_pages(&mut self) -> Result<(), Fault>
        requires { self.old.stored.broken ≡ false }
        ensures ok { OnOk result (SyncsDevice self.old.stored self.new.stored) }
        ensures err { IfErr result (λ f. (f ≡ fault.Device)
            × BreaksSync self.old.stored self.new.stored) }
        ensures views { WasWarm self.old.stored
            → OnOk result (ShowsSync self.old.stored.log self.old.stored.pool
            self.new.stored.pool) }
    {
        match self.pool.sync_pages() {
            Ok(()) => Ok(()),
            Err(_) => {
                self.broken = true;
                Err(Fault::Device)
            }
        }
    }

    /// How many changes wait for redo.
    pub fn pending(&self) -> usize
        ensures pending { result ≡ pending_of self.now.stored }
        // A page is lent only while changes wait for it.
        ensures none { pending_of self.now.stored ≡ 0 → leases_of self.now.stored.pool ≡ 0 }
    {
        leases_wait();
        let _ = self.pool.leases();
        self.pool.waiting()
    }

    /// The first page from there on for which changes wait.
    pub fn next_pending(&self, from: u32) -> Option<u32>
        ensures { WaitsFirst self.now.stored.pool.waits from result }
    {
        self.pool.next_pending(from)
    }

    /// The first row of the dirty page table from a page on.
    pub fn next_row(&self, from: u32) -> Option<LoggedPage>
        ensures row { IsNextRow self.now.stored.pool.dirty from result }
        // There is one entry a page, whatever the devices held.
        ensures count { length self.now.stored.pool.dirty ≡ self.now.stored.pages }
    {
        self.pool.next_row(from)
    }

    /// The page as it is now: a copy of the page in its frame, or else of the one in its block,
    /// which is read. It takes no memory. Device: the read has failed, which is counted. BadPage:
    /// the block is not that of the page, which never comes where the devices were sound when the
    /// store was made.
    pub fn page_now(&mut self, page: u32) -> Result<Page, Fault>
        requires { page < self.old.stored.pages }
        ensures ok { WasWarm self.old.stored → IfOk result (IsShown self.old.stored page) }
        ensures number { IfOk result (λ shown. id_of shown ≡ page) }
        // Whatever the devices held: it is the page of its frame, or one that a read of its block
        // may give.
        ensures found { IfOk result (λ shown. IsPageNow self.old.stored.pool page
            (state_of shown)) }
        ensures same { OnOk result (self.new ≡ self.old) }
        ensures err { IfErr result (λ f. NotShown self.old.stored page f self.new.stored) }
        ensures sound { WasWarm self.old.stored → IfErr result (λ f. f ≡ fault.BadPage page → ⊥) }
    {
        let found = self.pool.page_now(page)?;
        Ok(found)
    }
}
