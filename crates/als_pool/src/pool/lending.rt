// Pages lent, given back and recalled.
ghost use Rattle.std.specs.Prelude.{◌≡◌, ◌≢◌, ◌<◌, ◌≤◌, ◌↔◌, ◌++◌, ℕ, List, [], true, false, length, drop};
ghost use Rattle.std.specs.Prelude.{None, IsTrue, IsSome, IsOk, IfOk, IfErr, OnOk, OnErr};
ghost use Rattle.std.specs.Result.{IsErrOf};
ghost use Rattle.std.specs.Vec.{vec_len};
ghost use Rattle.als_record.specs.declared.record.Record.{Record as AnyRecord};
ghost use Rattle.als_record.specs.LogText.{end_of};
ghost use Rattle.als_record.specs.Pages.{page_at, changes_above};
ghost use Rattle.als_frames.specs.Frames.{frame_of};
ghost use Rattle.als_frames.specs.Outcomes.{IsFull};
ghost use Rattle.als_pool.specs.declared.fault.Fault.TheVariants.{PoolFull as IsPoolFull};
ghost use Rattle.als_pool.specs.declared.fault.Fault.TheVariants.{PageLent as IsPageLent};
ghost use Rattle.als_pool.specs.declared.fault.Fault.TheVariants.{NumbersSpent as AreSpent};
ghost use Rattle.als_pool.specs.declared.fault.Fault.TheVariants.{NothingToDo as IsNothingToDo};
ghost use Rattle.als_pool.specs.Queues.{pending_of};
ghost use Rattle.als_pool.specs.Pooled.{IsPooled, leases_of, SameLsns, SameLsnsBut, Grows};
ghost use Rattle.als_pool.specs.Refusals.{is_lent, are_spent};
ghost use Rattle.als_pool.specs.Bounds.{EndsBelow};
ghost use Rattle.als_pool.specs.Outcomes.{Loads, MakesResident, RefusesLoad, Lends, LendsFirst};
ghost use Rattle.als_pool.specs.Outcomes.{RefusesLend, IsOutstanding, Gives, Recalls};
ghost use Rattle.als_pool.specs.Images.{IsPoolOf};
ghost use Rattle.als_pool.specs.Restart.{HasRowsFrom};
ghost use Rattle.als_record.specs.declared.lsn.Lsn.{Lsn as AnyLsn};
ghost use Rattle.als_record.specs.declared.rows.LoggedPage.{LoggedPage as AnyRow};

use super::Pool;
use crate::fault::Fault;
use als_disk::BlockDisk;
use als_frames::Lent;
use als_lease::{LeaseRoom, PageLease};
use als_record::Lsn;
use std::alloc::{AllocError, Global};

// So much memory of ended leases is kept for the next ones.
const SPARE_ROOMS: usize = 32;

impl<D: BlockDisk> Pool<D> {
    /// Lends a page with the first changes that wait for it, at most 64. They wait until the lease
    /// is given back, and the page keeps its frame and its content. A page that has no frame is
    /// read into one; the changes that it has already no longer wait, and its row becomes exact.
    /// `end` is the end of the log.
    ///
    /// `PageLent`: the page is lent already. `NothingToDo`: there is no such page, or nothing waits
    /// for it. `NumbersSpent`: all numbers of leases are given. `PoolFull`: the page has no frame,
    /// all frames are used and none is free. `Device`: it could not be read. `BadPage`: its block
    /// has no image of it with a page_LSN below `end`. `Memory`: an allocation failed. They come in
    /// this order, and change no page, no row and nothing that waits; a failed read is counted.
    /// Then again `NothingToDo`: the page that was read has all that waited, which waits no more.
    pub fn lend(&mut self, page: u32, end: Lsn) -> Result<PageLease, Fault>
        ensures ok { IfOk result (λ lease. Lends self.old.pool self.new.pool page end.0 lease) }
        ensures err { IfErr result (λ e. RefusesLend e self.old self.new page end.0) }
        ensures lent { is_lent self.old.pool page ≡ true → IsErrOf result IsPageLent }
        ensures spent { is_lent self.old.pool page ≡ false
            → pending_of self.old.pool.waits page ≢ [] → are_spent self.old.pool ≡ true
            → IsErrOf result AreSpent }
        ensures full { pending_of self.old.pool.waits page ≢ [] → are_spent self.old.pool ≡ false
            → IsFull self.old.pool.frames page → IsErrOf result IsPoolFull }
        ensures places { self.new.room.places ≡ self.old.room.places }
        // For every log that the pool is of, the lease has the page as history repeated up to its
        // page_LSN, and the next changes that the log has for it.
        ensures history { IfOk result (λ lease. (log : List AnyRecord) (below : ℕ)
            → IsPoolOf log below self.old.pool
            → (lease.base ≡ page_at log page lease.base.lsn)
            × (lease.batch ++ drop 64 (pending_of self.new.pool.waits page)
            ≡ changes_above log page lease.base.lsn)) }
        // For every log that the pool is of, it stays so; no other page's page_LSN changes, and no
        // page_LSN last synced; and the block is one of the page's images.
        ensures keeps { (log : List AnyRecord) (below : ℕ) → IsPoolOf log below self.old.pool
            → IsPoolOf log below self.new.pool }
        ensures others { (log : List AnyRecord) (below : ℕ) → IsPoolOf log below self.old.pool
            → SameLsnsBut page self.old.pool self.new.pool }
        ensures grows { (log : List AnyRecord) (below : ℕ) → IsPoolOf log below self.old.pool
            → Grows self.old.pool self.new.pool }
        ensures sound { (log : List AnyRecord) (below : ℕ) → IsPoolOf log below self.old.pool
            → end_of log ≤ end.0 → IsErrOf result (Fault.BadPage page) → ⊥ }
        // Whatever the blocks hold: pages and what waits for them end below an offset that the end
        // is not above.
        ensures ends { (limit : ℕ) → end.0 ≤ limit → EndsBelow limit self.old.pool
            → EndsBelow limit self.new.pool }
        // The rows of unread pages stay those of the checkpoint.
        ensures given { (position : AnyLsn) (rows : List AnyRow)
            → HasRowsFrom position rows self.old.pool → HasRowsFrom position rows self.new.pool }
    {
        self.lend_waiting(page, end)
    }

    /// Takes back a lease that is out: the page becomes the lease's, and the changes that are
    /// redone in it no longer wait. It takes no memory.
    ///
    /// An `Err`, with the lease, where it is not out: its page is not lent, or is lent by another
    /// number, from another page or with other changes. Nothing has changed.
    pub fn give(&mut self, lease: PageLease) -> Result<(), PageLease>
        ensures exact { IsOk result ↔ IsOutstanding self.old.pool lease }
        ensures ok { OnOk result (Gives self.old.pool self.new.pool lease) }
        ensures err { IfErr result (λ l. (l ≡ lease) × (self.new ≡ self.old)) }
        ensures frames { self.new.room.frames ≡ self.old.room.frames }
        ensures places { self.new.room.places ≡ self.old.room.places }
        ensures leases { self.old.room.leases ≤ self.new.room.leases }
        // For every log that the pool is of, it stays so.
        ensures keeps { (log : List AnyRecord) (below : ℕ) → IsPoolOf log below self.old.pool
            → IsPoolOf log below self.new.pool }
        ensures others { SameLsnsBut lease.page self.old.pool self.new.pool }
        ensures grows { Grows self.old.pool self.new.pool }
        ensures ends { (end : ℕ) → EndsBelow end self.old.pool → EndsBelow end self.new.pool }
        // The rows of unread pages stay those of the checkpoint.
        ensures given { (position : AnyLsn) (rows : List AnyRow)
            → HasRowsFrom position rows self.old.pool → HasRowsFrom position rows self.new.pool }
    {
        self.take_back(lease)
    }

    /// Ends the lease of a page: the page is as it was lent, and its changes wait as before. The
    /// lease itself is refused from now on.
    ///
    /// `NothingToDo`: the page is not lent.
    pub fn recall(&mut self, page: u32) -> Result<(), Fault>
        ensures ok { OnOk result (Recalls self.old.pool self.new.pool page) }
        ensures err { IfErr result (λ e. (e ≡ IsNothingToDo)
            × (is_lent self.old.pool page ≡ false) × (self.new ≡ self.old)) }
        ensures room { self.new.room ≡ self.old.room }
        // For every log that the pool is of, it stays so.
        ensures keeps { (log : List AnyRecord) (below : ℕ) → IsPoolOf log below self.old.pool
            → IsPoolOf log below self.new.pool }
        ensures lsns { SameLsns self.old.pool self.new.pool }
        ensures grows { Grows self.old.pool self.new.pool }
        ensures ends { (end : ℕ) → EndsBelow end self.old.pool → EndsBelow end self.new.pool }
        // The rows of unread pages stay those of the checkpoint.
        ensures given { (position : AnyLsn) (rows : List AnyRow)
            → HasRowsFrom position rows self.old.pool → HasRowsFrom position rows self.new.pool }
    {
        self.end_lease(page)
    }

    /// How many pages are lent.
    pub fn leases(&self) -> usize
        ensures value { result ≡ leases_of self.now.pool }
        ensures facts { IsPooled self.now.pool }
    {
        self.frames.leases()
    }

    // The private twins below carry what a call does; what it keeps for every log follows from that
    // at the public call.
    fn lend_waiting(&mut self, page: u32, end: Lsn) -> Result<PageLease, Fault>
        ensures ok { IfOk result (λ lease. Lends self.old.pool self.new.pool page end.0 lease) }
        ensures err { IfErr result (λ e. RefusesLend e self.old self.new page end.0) }
        ensures places { self.new.room.places ≡ self.old.room.places }
    {
        if self.frames.lent_of(page).is_some() {
            return Err(Fault::PageLent);
        }
        if self.queues.first(page).is_none() {
            return Err(Fault::NothingToDo);
        }
        if self.numbers.peek().is_none() {
            return Err(Fault::NumbersSpent);
        }
        self.make_resident(page, end)?;
        if self.queues.first(page).is_none() {
            return Err(Fault::NothingToDo);
        }
        let lease = self.lend_first(page);
        Ok(lease)
    }

    // Makes a page resident, if it is not, and room for a lease.
    fn make_resident(&mut self, page: u32, end: Lsn) -> Result<(), Fault>
        requires { page < length self.old.pool.waits }
        ensures ok { OnOk result (MakesResident self.old.pool self.new.pool page end.0) }
        ensures resident { OnOk result (IsSome (frame_of self.new.pool.frames page)) }
        ensures room { OnOk result (0 < self.new.room.leases) }
        ensures err { IfErr result (λ e. RefusesLoad e self.old self.new page end.0) }
        ensures places { self.new.room.places ≡ self.old.room.places }
    {
        if self.frames.is_resident(page) {
            reserve_room(self.alloc, &mut self.rooms)?;
            return Ok(());
        }
        self.load(page, end)?;
        Ok(())
    }

    // Reads a page into a frame, and takes out what waits for it and is in it.
    fn load(&mut self, page: u32, end: Lsn) -> Result<(), Fault>
        requires in_range { page < length self.old.pool.waits }
        requires absent { frame_of self.old.pool.frames page ≡ None }
        ensures ok { OnOk result (Loads self.old.pool self.new.pool page end.0) }
        ensures room { OnOk result (0 < self.new.room.leases) }
        ensures err { IfErr result (λ e. RefusesLoad e self.old self.new page end.0) }
        ensures places { self.new.room.places ≡ self.old.room.places }
    {
        let found = self.frames.fetch(page, end)?;
        self.frames.reserve()?;
        reserve_room(self.alloc, &mut self.rooms)?;
        let count = self.queues.count_up_to(page, found.lsn());
        self.frames.put(found);
        self.queues.drop_front(page, count);
        let next = self.queues.first(page);
        self.dirty.loaded(page, next);
        self.unread[page as usize] = None;
        Ok(())
    }

    // Lends a resident page with the first changes that wait for it.
    fn lend_first(&mut self, page: u32) -> PageLease
        requires not_lent { is_lent self.old.pool page ≡ false }
        requires resident { IsSome (frame_of self.old.pool.frames page) }
        requires in_range { page < length self.old.pool.waits }
        requires some { pending_of self.old.pool.waits page ≢ [] }
        requires unspent { are_spent self.old.pool ≡ false }
        requires room { 0 < self.old.room.leases }
        ensures lends { LendsFirst self.old.pool self.new.pool page result }
        ensures places { self.new.room.places ≡ self.old.room.places }
    {
        let (Some(room), Some(number)) = (self.rooms.pop(), self.numbers.draw()) else {
            unreachable!();
        };
        let Some(base) = self.frames.frame(page) else {
            unreachable!();
        };
        let lease = room.fill(number, base, self.queues.waiting(page));
        let count = lease.batch().len();
        self.frames.lend(page, Lent { number, count });
        lease
    }

    fn take_back(&mut self, lease: PageLease) -> Result<(), PageLease>
        ensures exact { IsOk result ↔ IsOutstanding self.old.pool lease }
        ensures ok { OnOk result (Gives self.old.pool self.new.pool lease) }
        ensures err { IfErr result (λ l. (l ≡ lease) × (self.new ≡ self.old)) }
        ensures frames { self.new.room.frames ≡ self.old.room.frames }
        ensures places { self.new.room.places ≡ self.old.room.places }
        ensures leases { self.old.room.leases ≤ self.new.room.leases }
    {
        if !self.is_outstanding(&lease) {
            return Err(lease);
        }
        self.end_outstanding(&lease);
        keep_room(&mut self.rooms, lease.into_room());
        Ok(())
    }

    // Whether a lease is out.
    fn is_outstanding(&self, lease: &PageLease) -> bool
        ensures { IsTrue result ↔ IsOutstanding self.now.pool lease.now }
    {
        let page = lease.page_id();
        if page >= self.frames.pages() {
            return false;
        }
        let Some(base) = self.frames.frame(page) else {
            return false;
        };
        let Some(lent) = self.frames.lent_of(page) else {
            return false;
        };
        let batch = &self.queues.waiting(page)[..lent.count];
        lease.is_of(lent.number, base, batch)
    }

    // Takes back a lease that is out.
    fn end_outstanding(&mut self, lease: &PageLease)
        requires { IsOutstanding self.old.pool lease.now }
        ensures gives { Gives self.old.pool self.new.pool lease.now }
        ensures room { self.new.room ≡ self.old.room }
    {
        let page = lease.page_id();
        let done = lease.done();
        self.frames.take_back(page, lease.working());
        self.queues.drop_front(page, done);
    }

    fn end_lease(&mut self, page: u32) -> Result<(), Fault>
        ensures ok { OnOk result (Recalls self.old.pool self.new.pool page) }
        ensures err { IfErr result (λ e. (e ≡ IsNothingToDo)
            × (is_lent self.old.pool page ≡ false) × (self.new ≡ self.old)) }
        ensures room { self.new.room ≡ self.old.room }
    {
        if self.frames.lent_of(page).is_none() {
            return Err(Fault::NothingToDo);
        }
        self.frames.recall(page);
        Ok(())
    }
}

// Makes room for one more lease, if there is none.
fn reserve_room(alloc: Global, rooms: &mut Vec<LeaseRoom>) -> Result<(), AllocError>
    ensures ok { OnOk result (0 < vec_len rooms.new) }
    ensures err { OnErr result (vec_len rooms.old ≡ 0) }
{
    if !rooms.is_empty() {
        return Ok(());
    }
    rooms.reserve(SPARE_ROOMS)?;
    rooms.push_reserved(LeaseRoom::new(alloc)?);
    Ok(())
}

// Keeps the memory of a lease that has ended, if there is a place for it. It takes no memory.
fn keep_room(rooms: &mut Vec<LeaseRoom>, room: LeaseRoom)
    ensures { vec_len rooms.old ≤ vec_len rooms.new }
{
    if rooms.len() < SPARE_ROOMS && rooms.len() < rooms.capacity() {
        rooms.push_reserved(room);
    }
}
