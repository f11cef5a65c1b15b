ghost use Rattle.std.specs.Prelude.{◌≡◌, ◌<◌, ◌≤◌, ◌+◌, ◌↔◌, true, length, IsTrue, MatchBool};
ghost use Rattle.als_page.specs.Page.{id_of, state_of};
ghost use Rattle.als_lease.specs.Lease.{IsLease, working_of, turn_of, is_finished, with_done};

use crate::work::{TURN_LEN, Work};
use als_page::Page;
use als_record::Change;
use std::marker::Model;

/// A page that is lent: its content, the first changes that wait for it, and the page that they
/// make of it, as far as they are redone. A lease cannot be copied, and its pool gives each of its
/// numbers once.
pub struct PageLease {
    pub(crate) work: Box<Work>,
}

// Written out: a derived drop is proved wherever a lease is dropped, this one only here.
impl Drop for PageLease {
    fn drop(self) {
        let PageLease { work } = self;
        drop(work);
    }
}

impl Model for PageLease {
    ghost use Rattle.std.specs.Prelude.{◌<◌, length};
    ghost use Rattle.als_lease.specs.Lease.{Leased};

    ghost Value = { Leased };

    ghost view = { λ l. l.work.value };

    ghost invariant = { λ l. 0 < length l.work.value.batch };
}

impl PageLease {
    /// The lease's number.
    pub fn number(&self) -> u64
        ensures { result ≡ self.now.number }
    {
        self.work.number()
    }

    /// The number of the page that is lent.
    pub fn page_id(&self) -> u32
        ensures { result ≡ self.now.page }
    {
        self.work.page_id()
    }

    /// The page as it was lent.
    pub fn base(&self) -> &Page
        ensures number { id_of result.now ≡ self.now.page }
        ensures state { state_of result.now ≡ self.now.base }
    {
        self.work.base()
    }

    /// The changes that were lent with it, 1 to 64.
    pub fn batch(&self) -> &[Change]
        ensures value { result.now ≡ self.now.batch }
        ensures some { 0 < length result.now }
        ensures most { length result.now ≤ 64 }
    {
        let _done = self.work.done();
        self.work.batch()
    }

    /// How many of them are redone.
    pub fn done(&self) -> usize
        ensures value { result ≡ self.now.done }
        ensures facts { IsLease self.now }
    {
        self.work.done()
    }

    /// How many whole turns of 16 changes are redone.
    pub fn turn(&self) -> usize
        ensures { result ≡ turn_of self.now }
    {
        self.work.done() / TURN_LEN
    }

    /// The page with the changes redone so far.
    pub fn working(&self) -> &Page
        ensures number { id_of result.now ≡ self.now.page }
        ensures state { state_of result.now ≡ working_of self.now }
    {
        self.work.working()
    }

    /// Whether all changes are redone.
    pub fn finished(&self) -> bool
        ensures { result ≡ is_finished self.now }
    {
        self.work.finished()
    }

    /// Redoes the next change of the batch, and says whether there was one. It takes no memory and
    /// no lock, and always succeeds.
    pub fn redo_next(&mut self) -> bool
        ensures { MatchBool result
            ((self.old.done < length self.old.batch)
            × (self.new ≡ with_done self.old (self.old.done + 1)))
            ((is_finished self.old ≡ true) × (self.new ≡ self.old)) }
    {
        self.work.redo_next()
    }

    /// Whether this is the lease of this number, of this page as it was lent, with these changes.
    pub fn is_of(&self, number: u64, base: &Page, batch: &[Change]) -> bool
        ensures { IsTrue result ↔ ((self.now.number ≡ number) × (self.now.page ≡ id_of base.now)
            × (self.now.base ≡ state_of base.now) × (self.now.batch ≡ batch.now)) }
    {
        self.work.is_of(number, base, batch)
    }

    pub(crate) fn into_work(self) -> Box<Work> {
        let PageLease { work } = self;
        work
    }
}
