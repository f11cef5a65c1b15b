ghost use Rattle.std.specs.Prelude.{◌≡◌, ◌↔◌, ◌<◌, ◌≤◌, List, ◌∷◌, length, Some, slice_get, IsTrue};
ghost use Rattle.std.specs.Prelude.{IfOk, IfErr, IsOkAnd};
ghost use Rattle.als_page.specs.Block.{is_page_lsn};

use crate::block::{HEAD, is_head, is_zero, no_images, read_slots, write_head, write_slots};
use crate::fault::Fault;
use crate::same::same_images;
use als_record::{BLOCK_LEN, Change, Image, KeptImage, Lsn, SLOT_COUNT};
use byteorder::{BigEndian, ByteOrder};

/// A page of the database: 15 slots of images, and its page_LSN, the LSN of the last record that
/// changed it. It has 496 bytes, and is copied as it stands.
#[derive(Clone, Copy)]
pub struct Page {
    id: u32,
    lsn: Lsn,
    slots: [KeptImage; SLOT_COUNT],
    ghost count: { length slots ≡ 15 },
    ghost written: { IsTrue (is_page_lsn lsn.0 slots) },
}

impl Page {
    ghost use Rattle.als_record.specs.declared.change.Change.{Change as AnyChange};
    ghost use Rattle.als_record.specs.declared.record.Record.{Record as AnyRecord};
    ghost use Rattle.als_record.specs.LogText.{follow_from};
    ghost use Rattle.als_record.specs.Pages.{PageState, empty_page, IsPageState, redone, page_at};
    ghost use Rattle.als_record.specs.Pages.{changes_above};
    ghost use Rattle.als_page.specs.Block.{block_of};
    ghost use Rattle.als_page.specs.Page.{id_of, state_of};

    /// The page with this number before any record has changed it: no slot has a value, and the
    /// page_LSN is 0.
    pub fn empty(id: u32) -> Page
        ensures number { id_of result ≡ id }
        ensures state { state_of result ≡ empty_page }
    {
        Page {
            id,
            lsn: Lsn(0),
            slots: no_images(),
        }
    }

    /// The page's number.
    pub fn id(&self) -> u32
        ensures { result ≡ id_of self.now }
    {
        self.id
    }

    /// The page_LSN: the LSN of the last record that changed the page, 0 if none did.
    pub fn lsn(&self) -> Lsn
        ensures { result.0 ≡ (state_of self.now).lsn }
    {
        self.lsn
    }

    /// Whether two pages have one number and one content.
    pub fn is_same(&self, other: &Page) -> bool
        ensures { IsTrue result ↔ ((id_of self.now ≡ id_of other.now)
            × (state_of self.now ≡ state_of other.now)) }
    {
        self.id == other.id && self.lsn == other.lsn && same_images(&self.slots, &other.slots)
    }

    /// The image of a slot, copied. It takes no memory.
    pub fn image(&self, slot: u8) -> Image
        requires { slot ≤ 14 }
        ensures { slice_get (state_of self.now).slots slot ≡ Some result }
    {
        self.slots[slot as usize].image()
    }

    /// Redoes a change of this page: its slot gets the after image, and the page_LSN becomes the
    /// change's LSN. It takes no memory and always succeeds.
    pub fn redo(&mut self, change: &Change)
        requires page { change.now.key.page ≡ id_of self.old }
        requires slot { change.now.key.slot ≤ 14 }
        requires first { 16 ≤ change.now.lsn.0 }
        requires above { (state_of self.old).lsn < change.now.lsn.0 }
        ensures number { id_of self.new ≡ id_of self.old }
        ensures state { state_of self.new ≡ redone (state_of self.old) change.now }
        // The page with all that a log has for it up to its page_LSN becomes, by the next change
        // that the log has for it, the page at that change: ARIES repeats history.
        ensures history { (log : List AnyRecord) (rest : List AnyChange)
            → IsTrue (follow_from 16 log)
            → state_of self.old ≡ page_at log (id_of self.old) (state_of self.old).lsn
            → changes_above log (id_of self.old) (state_of self.old).lsn ≡ change.now ∷ rest
            → state_of self.new ≡ page_at log (id_of self.old) change.now.lsn.0 }
    {
        self.slots[change.key.slot as usize] = change.after;
        self.lsn = change.lsn;
    }

    /// Writes the page's block.
    pub fn write_block(&self, into: &mut [u8; BLOCK_LEN])
        ensures written { into.new ≡ block_of (id_of self.now) (state_of self.now) }
        ensures fits { IsPageState (state_of self.now) }
    {
        if self.lsn.0 == 0 {
            into.fill(0);
            return;
        }
        let (head, slots) = into.split_at_mut(HEAD);
        write_head(self.lsn, self.id, head);
        write_slots(&self.slots, slots);
    }

    /// The page with this number that a block holds. Refuses with 33 (BadPage) bytes that are not
    /// the block of a page with this number: a page_LSN below 16 where not all bytes are zero,
    /// another number, another version than 1, a slot's first byte above 32, a byte that must be
    /// zero and is not.
    pub fn read_block(id: u32, block: &[u8; BLOCK_LEN]) -> Result<Page, Fault>
        // What is found has this block.
        ensures found { IfOk result (λ page. (id_of page ≡ id)
            × (block.now ≡ block_of id (state_of page)) × IsPageState (state_of page)) }
        // What has this block is found, so other bytes alone are refused.
        ensures only { (page : PageState) → IsPageState page → block.now ≡ block_of id page
            → IsOkAnd result (λ found. (id_of found ≡ id) × (state_of found ≡ page)) }
        ensures refused { IfErr result (λ fault. fault ≡ Fault.BadPage id) }
    {
        let lsn = Lsn(BigEndian::read_u64(block));
        if lsn.0 < 16 {
            return if is_zero(block) {
                Ok(Page::empty(id))
            } else {
                Err(Fault::BadPage { page: id })
            };
        }
        let (head, slots) = block.split_at(HEAD);
        if !is_head(lsn, id, head) {
            return Err(Fault::BadPage { page: id });
        }
        match read_slots(slots) {
            Some(slots) => Ok(Page { id, lsn, slots }),
            None => Err(Fault::BadPage { page: id }),
        }
    }
}
