ghost use Rattle.std.specs.Prelude.{◌≡◌, ◌<◌, ◌≤◌, ◌++◌, ◌∷◌, [], ℕ, List, Some, length, map};
ghost use Rattle.std.specs.Prelude.{replicate, slice_set, IfOk, false};
ghost use Rattle.std.specs.Vec.{vec_len, vec_capacity};
ghost use Rattle.als_dirty.specs.Listed.{is_on, Lists};

use crate::dirty_page::DirtyPage;
use als_record::{LoggedPage, Lsn, PageRows};
use std::alloc::{AllocError, Global};
use std::marker::Model;

/// The dirty page table. A page has a row where its device may have an image that lacks a record of
/// the log; the row's RecLSN is the first record that the image last synced lacks.
pub struct DirtyTable {
    pages: Vec<DirtyPage>,
    // Whether a page is on the list of those written since the last sync.
    is_listed: Vec<bool>,
    listed: Vec<u32>,
}

// Written out: a derived drop is proved wherever a table is dropped, this one only here.
impl Drop for DirtyTable {
    fn drop(self) {
        let DirtyTable {
            pages,
            is_listed,
            listed,
        } = self;
        drop(pages);
        drop(is_listed);
        drop(listed);
    }
}

impl Model for DirtyTable {
    ghost use Rattle.std.specs.Prelude.{List};
    ghost use Rattle.std.specs.Vec.{vec_capacity};
    ghost use Rattle.als_dirty.specs.declared.dirty_page.DirtyPage.{DirtyPage};
    ghost use Rattle.als_dirty.specs.Listed.{IsListed};

    ghost Value = { List DirtyPage };

    ghost view = { λ t. t.pages.items };

    ghost invariant = { λ t. IsListed t.pages.items t.is_listed.items t.listed.items
        (vec_capacity t.listed) };
}

impl DirtyTable {
    ghost use Rattle.als_record.specs.declared.change.Change.{Change as AnyChange};
    ghost use Rattle.als_record.specs.declared.record.Record.{Record as AnyRecord};
    ghost use Rattle.als_record.specs.LogText.{end_of};
    ghost use Rattle.als_record.specs.Pages.{change_of, changes_above};
    ghost use Rattle.als_dirty.specs.Entries.{untouched_page, entry_of, after_record, after_write};
    ghost use Rattle.als_dirty.specs.Entries.{after_sync, after_load};
    ghost use Rattle.als_dirty.specs.Rows.{rec_lsn_of, rows_of, IsNextRow};
    ghost use Rattle.als_dirty.specs.Images.{first_lsn, IsFirstLacked, IsDirtyPageOf};
    ghost use Rattle.als_dirty.specs.Images.{AreDirtyPagesOf};

    /// The table of a database with so many pages, numbered from 0 on, at most 4,096: the device
    /// has the empty image of each, synced, and there is no row. No other call but `rows` takes
    /// memory.
    pub fn new(alloc: Global, pages: u32) -> Result<DirtyTable, AllocError>
        requires { pages ≤ 4096 }
        ensures value { IfOk result (λ t. t ≡ replicate pages untouched_page) }
        ensures empty_log { IfOk result (λ t. AreDirtyPagesOf [] (λ _. 0) (λ _. 0) t) }
    {
        let mut entries = Vec::with_capacity(alloc, pages as usize)?;
        let mut flags = Vec::with_capacity(alloc, pages as usize)?;
        let listed = Vec::with_capacity(alloc, pages as usize)?;
        for _page in 0..pages {
            entries.push(DirtyPage::UNTOUCHED)?;
            flags.push(false)?;
        }
        Ok(DirtyTable {
            pages: entries,
            is_listed: flags,
            listed,
        })
    }

    /// A record of the log, at its end, changes a page: an image that lacked none lacks it from now
    /// on. So the page has a row from now on, with this RecLSN if it had none.
    #[inline]
    pub fn note_change(&mut self, page: u32, lsn: Lsn)
        requires { page < length self.old }
        ensures value { self.new ≡ slice_set self.old page
            (after_record (entry_of self.old page) lsn) }
        ensures kept { (log : List AnyRecord) (r : AnyRecord) (c : AnyChange) (synced written : ℕ
            → ℕ) → AreDirtyPagesOf log synced written self.old
            → r.lsn.0 ≡ end_of log → change_of r ≡ Some c → c.key.page ≡ page → c.lsn ≡ lsn
            → AreDirtyPagesOf (log ++ r ∷ []) synced written self.new }
    {
        self.pages[page as usize].note_change(lsn);
    }

    /// An image of a page was written, and `next` is the first record of the log that it lacks.
    /// Rows do not move: a crash may still leave the image last synced.
    pub fn note_write(&mut self, page: u32, next: Option<Lsn>)
        requires { page < length self.old }
        ensures value { self.new ≡ slice_set self.old page
            (after_write (entry_of self.old page) next) }
        // Where the image's page_LSN is `lsn`, and that of the page's image last written was not
        // above it.
        ensures kept { (log : List AnyRecord) (synced written lsn : ℕ)
            → IsDirtyPageOf log page synced written (entry_of self.old page) → written ≤ lsn
            → IsFirstLacked log page lsn next
            → IsDirtyPageOf log page synced lsn (entry_of self.new page) }
    {
        list(&mut self.is_listed, &mut self.listed, page);
        self.pages[page as usize].written = next;
    }

    /// The device was synced: of each page it has the image last written alone. A row moves to the
    /// first record that this image lacks, or goes where it lacks none. It costs by the pages that
    /// were written since the last sync.
    pub fn note_sync(&mut self)
        ensures value { self.new ≡ map after_sync self.old }
        ensures kept { (log : List AnyRecord) (synced written : ℕ → ℕ)
            → AreDirtyPagesOf log synced written self.old
            → AreDirtyPagesOf log written written self.new }
    {
        for i in 0..self.listed.len() {
            let page = self.listed[i] as usize;
            self.pages[page].note_sync();
            self.is_listed[page] = false;
        }
        self.listed.clear();
    }

    /// The only image of a page was read, and `next` is the first record of the log that it lacks.
    /// So a row that was taken from a checkpoint becomes exact.
    pub fn loaded(&mut self, page: u32, next: Option<Lsn>)
        requires { page < length self.old }
        ensures value { self.new ≡ slice_set self.old page (after_load next) }
        ensures kept { (log : List AnyRecord) (lsn : ℕ) → IsFirstLacked log page lsn next
            → IsDirtyPageOf log page lsn lsn (entry_of self.new page) }
    {
        let written = next;
        self.pages[page as usize] = DirtyPage {
            synced: next,
            written,
        };
    }

    /// The RecLSN of a page's row, if it has one.
    pub fn rec_lsn(&self, page: u32) -> Option<Lsn>
        requires { page < length self.now }
        ensures value { result ≡ rec_lsn_of self.now page }
        ensures first { (log : List AnyRecord) (synced written : ℕ)
            → IsDirtyPageOf log page synced written (entry_of self.now page)
            → result ≡ first_lsn (changes_above log page synced) }
    {
        self.pages[page as usize].synced
    }

    /// The first row from a page on.
    pub fn next_row(&self, from: u32) -> Option<LoggedPage>
        ensures { IsNextRow self.now from result }
    {
        for page in from as usize..self.pages.len() {
            if let Some(rec_lsn) = self.pages[page].synced {
                return Some(LoggedPage {
                    page: page as u32,
                    rec_lsn,
                });
            }
        }
        None
    }

    /// All rows, in rising page.
    pub fn rows(&self, alloc: Global) -> Result<PageRows, AllocError>
        ensures { IfOk result (λ rows. rows ≡ rows_of self.now) }
    {
        let mut rows = PageRows::new(alloc);
        for page in 0..self.pages.len() {
            if let Some(rec_lsn) = self.pages[page].synced {
                let page = page as u32;
                rows.push(LoggedPage { page, rec_lsn })?;
            }
        }
        Ok(rows)
    }
}

// Puts a page on the list of those written since the last sync, if it is not on it.
fn list(is_listed: &mut Vec<bool>, listed: &mut Vec<u32>, page: u32)
    requires inside { page < length is_listed.old.items }
    requires room { is_on is_listed.old.items page ≡ false
        → vec_len listed.old < vec_capacity listed.old }
    ensures lists { Lists is_listed.old.items is_listed.new.items listed.old.items listed.new.items
        page }
    ensures capacity { vec_capacity listed.new ≡ vec_capacity listed.old }
{
    if !is_listed[page as usize] {
        is_listed[page as usize] = true;
        listed.push_reserved(page);
    }
}
