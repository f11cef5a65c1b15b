ghost use Rattle.std.specs.Prelude.{◌≡◌, ◌++◌, ◌∷◌, ◌≤◌, [], ℕ, List, None, OnOk, IfSome, length};
ghost use Rattle.als_record.specs.declared.record.Record.{Record as AnyRecord};
ghost use Rattle.als_record.specs.LogText.{IsLog};
ghost use Rattle.als_pages_check.specs.Checked.{AreChecked, IsAdded, AreSound, IsFirstUnsound};

use crate::page_check::PageCheck;
use als_record::{BLOCK_LEN, Lsn, Record};
use std::alloc::{AllocError, Global};

/// The pages of a database against its log, by their numbers. Each takes 1,032 bytes.
pub struct Checks {
    pub(crate) pages: Vec<PageCheck>,
}

// Written out: a derived drop is proved wherever checks are dropped, this one only here.
impl Drop for Checks {
    fn drop(self) {
        let Checks { pages } = self;
        drop(pages);
    }
}

impl Checks {
    /// No page is there yet, and no record is read.
    pub fn new(alloc: Global) -> Checks
        ensures checked { AreChecked result.pages.items [] }
        ensures none { result.pages.items ≡ [] }
    {
        Checks {
            pages: Vec::new(alloc),
        }
    }

    /// Puts the next page in: its block, and the LSN from which on a restart redoes its changes.
    /// Pages come before records.
    pub fn add(&mut self, block: &[u8; BLOCK_LEN], redone_from: Lsn) -> Result<(), AllocError>
        ensures checked { OnOk result (AreChecked self.old.pages.items []
            → AreChecked self.new.pages.items []) }
        ensures added { OnOk result (IsAdded self.old.pages.items block.now redone_from
            self.new.pages.items) }
    {
        PageCheck::put(&mut self.pages, block, redone_from)
    }

    /// Takes the next record of the log.
    pub fn note(&mut self, logged: &Record)
        ensures { (log : List AnyRecord) → AreChecked self.old.pages.items log
            → AreChecked self.new.pages.items (log ++ logged.now ∷ []) }
    {
        let Some(change) = logged.change() else {
            return;
        };
        let place = change.key.page as usize;
        if place < self.pages.len() {
            self.pages[place].note(&change);
        }
    }

    /// The first page whose block is not what the log makes of the page at the block's page_LSN, or
    /// lacks a change which no restart redoes. None: no page is so.
    pub fn first_differing(&self) -> Option<u32>
        ensures none { result ≡ None → (pages : ℕ) (log : List AnyRecord) → IsLog pages log
            → length self.now.pages.items ≤ 4294967295
            → AreChecked self.now.pages.items log → AreSound log self.now.pages.items }
        ensures some { IfSome result (λ page. (pages : ℕ) (log : List AnyRecord) → IsLog pages log
            → length self.now.pages.items ≤ 4294967295
            → AreChecked self.now.pages.items log
            → IsFirstUnsound log self.now.pages.items page) }
    {
        let mut page = 0_u32;
        for check in self.pages.iter() {
            if !check.agrees(page) {
                return Some(page);
            }
            page = page.saturating_add(1);
        }
        None
    }
}
