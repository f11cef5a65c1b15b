// What a pool is asked.
ghost use Rattle.std.specs.Prelude.{◌≡◌, ◌<◌, ℕ, List, length, Some, None, IfOk, IfErr, OnOk};
ghost use Rattle.std.specs.Result.{IsErrOf};
ghost use Rattle.als_record.specs.declared.record.Record.{Record as AnyRecord};
ghost use Rattle.als_record.specs.Pages.{changes_above, page_at};
ghost use Rattle.als_page.specs.Page.{id_of, state_of};
ghost use Rattle.als_frames.specs.Images.{synced_lsn, lsn_now};
ghost use Rattle.als_dirty.specs.Rows.{rec_lsn_of, rows_of, IsNextRow};
ghost use Rattle.als_dirty.specs.Images.{first_lsn};
ghost use Rattle.als_pool.specs.Queues.{total_waiting, WaitsFirst};
ghost use Rattle.als_pool.specs.Pooled.{unread_of};
ghost use Rattle.als_pool.specs.Bounds.{EndsBelow};
ghost use Rattle.als_pool.specs.Outcomes.{IsPageNow, RefusesPage};
ghost use Rattle.als_pool.specs.Images.{IsPoolOf};
ghost use Rattle.als_pool.specs.Restart.{HasRowsFrom};
ghost use Rattle.als_record.specs.declared.lsn.Lsn.{Lsn as AnyLsn};
ghost use Rattle.als_record.specs.declared.rows.LoggedPage.{LoggedPage as AnyRow};

use super::Pool;
use crate::fault::Fault;
use als_disk::BlockDisk;
use als_page::Page;
use als_record::{LoggedPage, Lsn, PageRows};
use std::alloc::{AllocError, Global};

impl<D: BlockDisk> Pool<D> {
    /// The LSN from which on the changes of a page wait that was not read since a restart; none for
    /// one that was, and for no page.
    pub fn waits_from(&self, page: u32) -> Option<Lsn>
        ensures { result ≡ unread_of self.now.pool.unread page }
    {
        match self.unread.get(page as usize) {
            Some(from) => *from,
            None => None,
        }
    }

    /// The page as it is now: a copy of the page in its frame, or else of the one in its block,
    /// which is read. It takes no memory.
    ///
    /// `Device`: the read has failed. `BadPage`: the block is not that of the page.
    pub fn page_now(&mut self, page: u32) -> Result<Page, Fault>
        requires { page < length self.old.pool.waits }
        ensures number { IfOk result (λ p. id_of p ≡ page) }
        ensures ok { IfOk result (λ p. IsPageNow self.old.pool page (state_of p)) }
        ensures same { OnOk result (self.new ≡ self.old) }
        ensures err { IfErr result (λ e. RefusesPage e self.old.pool self.new.pool page) }
        ensures room { self.new.room ≡ self.old.room }
        // For every log that the pool is of, it stays so, and the page is history repeated up to
        // its page_LSN.
        ensures keeps { (log : List AnyRecord) (below : ℕ) → IsPoolOf log below self.old.pool
            → IsPoolOf log below self.new.pool }
        ensures history { IfOk result (λ p. (log : List AnyRecord) (below : ℕ)
            → IsPoolOf log below self.old.pool
            → state_of p ≡ page_at log page (lsn_now self.old.pool.frames page)) }
        ensures sound { (log : List AnyRecord) (below : ℕ) → IsPoolOf log below self.old.pool
            → IsErrOf result (Fault.BadPage page) → ⊥ }
        ensures ends { (end : ℕ) → EndsBelow end self.old.pool → EndsBelow end self.new.pool }
        // The rows of unread pages stay those of the checkpoint.
        ensures given { (position : AnyLsn) (rows : List AnyRow)
            → HasRowsFrom position rows self.old.pool → HasRowsFrom position rows self.new.pool }
    {
        self.read_page(page)
    }

    fn read_page(&mut self, page: u32) -> Result<Page, Fault>
        requires { page < length self.old.pool.waits }
        ensures number { IfOk result (λ p. id_of p ≡ page) }
        ensures ok { IfOk result (λ p. IsPageNow self.old.pool page (state_of p)) }
        ensures same { OnOk result (self.new ≡ self.old) }
        ensures err { IfErr result (λ e. RefusesPage e self.old.pool self.new.pool page) }
        ensures room { self.new.room ≡ self.old.room }
    {
        if let Some(framed) = self.frames.frame(page) {
            return Ok(*framed);
        }
        let found = self.frames.stored(page)?;
        Ok(found)
    }

    /// How many pages there are.
    pub fn pages(&self) -> u32
        ensures pages { result ≡ length self.now.pool.waits }
        ensures paged { self.now.pool.frames.pages ≡ length self.now.pool.waits }
    {
        self.frames.pages()
    }

    /// How many changes wait, over all pages.
    pub fn waiting(&self) -> usize
        ensures { result ≡ total_waiting self.now.pool.waits }
    {
        self.queues.total()
    }

    /// The first page from there on for which changes wait.
    pub fn next_pending(&self, from: u32) -> Option<u32>
        ensures { WaitsFirst self.now.pool.waits from result }
    {
        self.queues.next_pending(from)
    }

    /// The RecLSN of a page's row, if it has one.
    pub fn rec_lsn(&self, page: u32) -> Option<Lsn>
        requires { page < length self.now.pool.waits }
        ensures value { result ≡ rec_lsn_of self.now.pool.dirty page }
        // For every log that the pool is of, it is the first record that the image last synced
        // lacks, once the page was read.
        ensures first { (log : List AnyRecord) (below : ℕ) → IsPoolOf log below self.now.pool
            → unread_of self.now.pool.unread page ≡ None
            → result ≡ first_lsn (changes_above log page (synced_lsn self.now.pool.frames page)) }
    {
        self.dirty.rec_lsn(page)
    }

    /// The first row of the dirty page table from a page on.
    pub fn next_row(&self, from: u32) -> Option<LoggedPage>
        ensures row { IsNextRow self.now.pool.dirty from result }
        ensures tabled { length self.now.pool.dirty ≡ length self.now.pool.waits }
    {
        self.dirty.next_row(from)
    }

    /// The dirty page table, in rising page.
    pub fn rows(&self, alloc: Global) -> Result<PageRows, AllocError>
        ensures rows { IfOk result (λ rows. rows ≡ rows_of self.now.pool.dirty) }
        ensures tabled { length self.now.pool.dirty ≡ length self.now.pool.waits }
    {
        let rows = self.dirty.rows(alloc)?;
        Ok(rows)
    }
}
