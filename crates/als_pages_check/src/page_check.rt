ghost use Rattle.std.specs.Prelude.{◌≡◌, ◌≤◌, ◌<◌, OnOk, true, false, IsTrue, ◌↔◌, nat_lt, if◌then◌else◌};
ghost use Rattle.std.specs.Prelude.{length};
ghost use Rattle.als_record.specs.Pages.{redone, IsPageState};
ghost use Rattle.als_page.specs.Page.{state_of};
ghost use Rattle.als_pages_check.specs.Checked.{repeated, IsAdded, HasAgreed};

use als_page::Page;
use als_record::{BLOCK_LEN, Change, Image, ImageView, KeptImage, Lsn, SLOT_COUNT};
use byteorder::{BigEndian, ByteOrder};
use std::alloc::AllocError;

/// One page against the log: its block, and what the log makes of the page.
#[derive(Clone, Copy)]
pub struct PageCheck {
    /// Its block.
    pub(crate) block: [u8; BLOCK_LEN],
    /// The page_LSN that the block has.
    pub(crate) page_lsn: Lsn,
    /// A restart redoes the page's changes from there on.
    pub(crate) redone_from: Lsn,
    /// Whether there is a change above the page_LSN that no restart redoes.
    pub(crate) lacks: bool,
    /// The last change of the page up to the page_LSN, 0 where there is none.
    pub(crate) last: Lsn,
    /// The images of the page's slots after that.
    pub(crate) slots: [KeptImage; SLOT_COUNT],
}

/// Whether an image is the one that is kept.
fn is_kept(image: &Image, kept: &KeptImage) -> bool
    ensures { IsTrue result ↔ (image.now ≡ kept.now) }
{
    kept.is(&ImageView::of(image))
}

/// Whether a page has these images.
fn has_images(page: &Page, slots: &[KeptImage; SLOT_COUNT]) -> bool
    requires page { length (state_of page.now).slots ≡ 15 }
    requires slots { length slots.now ≡ 15 }
    ensures { IsTrue result ↔ ((state_of page.now).slots ≡ slots.now) }
{
    for slot in 0..15_u8 {
        if !is_kept(&page.image(slot), &slots[slot as usize]) {
            return false;
        }
    }
    true
}

impl PageCheck {
    /// Puts a page of which no record is read yet behind others.
    pub(crate) fn put(
        pages: &mut Vec<PageCheck>,
        block: &[u8; BLOCK_LEN],
        redone_from: Lsn,
    ) -> Result<(), AllocError>
        ensures { OnOk result (IsAdded pages.old.items block.now redone_from pages.new.items) }
    {
        pages.push(PageCheck {
            block: *block,
            page_lsn: Lsn(BigEndian::read_u64(block.as_slice())),
            redone_from,
            lacks: false,
            last: Lsn(0),
            slots: [KeptImage::absent(); SLOT_COUNT],
        })?;
        Ok(())
    }

    /// Takes the next change of the page.
    pub(crate) fn note(&mut self, change: &Change)
        ensures block { self.new.block ≡ self.old.block }
        ensures page_lsn { self.new.page_lsn ≡ self.old.page_lsn }
        ensures redone_from { self.new.redone_from ≡ self.old.redone_from }
        // What the block should have is redone.
        ensures below { change.now.lsn.0 ≤ self.old.page_lsn.0
            → (self.new.lacks ≡ self.old.lacks)
            × (change.now.key.slot ≤ 14
            → repeated self.new ≡ redone (repeated self.old) change.now) }
        // What it may lack is what a restart redoes.
        ensures above { self.old.page_lsn.0 < change.now.lsn.0
            → (self.new.lacks
            ≡ (if nat_lt change.now.lsn.0 self.old.redone_from.0 then true else self.old.lacks))
            × (repeated self.new ≡ repeated self.old) }
    {
        if change.lsn.0 <= self.page_lsn.0 {
            self.redo(change);
            return;
        }
        if change.lsn.0 < self.redone_from.0 {
            self.lacks = true;
        }
    }

    /// Redoes a change of the page.
    fn redo(&mut self, change: &Change)
        ensures block { self.new.block ≡ self.old.block }
        ensures page_lsn { self.new.page_lsn ≡ self.old.page_lsn }
        ensures redone_from { self.new.redone_from ≡ self.old.redone_from }
        ensures lacks { self.new.lacks ≡ self.old.lacks }
        ensures redone { change.now.key.slot ≤ 14
            → repeated self.new ≡ redone (repeated self.old) change.now }
    {
        let slot = change.key.slot as usize;
        if slot < SLOT_COUNT {
            self.slots[slot] = change.after;
            self.last = change.lsn;
        }
    }

    /// Whether the block of the page with this number is what the log makes of the page, and lacks
    /// no change that no restart redoes.
    pub(crate) fn agrees(&self, page: u32) -> bool
        ensures { IsPageState (repeated self.now) → IsTrue result ↔ HasAgreed page self.now }
    {
        match Page::read_block(page, &self.block) {
            Ok(stored) => {
                let is_last = stored.lsn() == self.last;
                is_last && !self.lacks && has_images(&stored, &self.slots)
            }
            Err(_) => false,
        }
    }
}
