use crate::failing::PAGES;
use crate::stop::Stop;
use als_engine::{Events, Writes};
use als_page::Page;
use als_record::{ImageView, KeptImage, Key, SLOT_COUNT, TransId};
use als_writer::Set;
use std::alloc::Global;

/// The keys of the database.
const KEYS: usize = PAGES as usize * SLOT_COUNT;

/// What each key has, and the transaction in doubt that holds it.
#[derive(Drop)]
pub struct Values {
    images: Vec<KeptImage>,
    holders: Vec<Option<TransId>>,
}

/// Where a key's image is.
fn place(key: Key) -> usize {
    key.page as usize * SLOT_COUNT + key.slot as usize
}

impl Values {
    /// No key has a value, nor is one held.
    pub fn new(alloc: Global) -> Result<Values, Stop> {
        let Ok(images) = vec![in alloc; KeptImage::absent(); KEYS] else {
            return Err(Stop::Memory);
        };
        match vec![in alloc; None; KEYS] {
            Ok(holders) => Ok(Values { images, holders }),
            Err(_) => Err(Stop::Memory),
        }
    }

    /// What a key has.
    pub fn get(&self, key: Key) -> KeptImage {
        match self.images.get(place(key)) {
            Some(image) => *image,
            None => KeptImage::absent(),
        }
    }

    /// Gives keys other images.
    pub fn set(&mut self, sets: &[Set]) {
        for set in sets {
            if let Some(image) = self.images.get_mut(place(set.key)) {
                *image = set.image;
            }
        }
    }

    /// Gives keys what a transaction in doubt wrote, which holds them.
    pub fn hold(&mut self, sets: &[Set], by: TransId) {
        self.set(sets);
        for set in sets {
            if let Some(holder) = self.holders.get_mut(place(set.key)) {
                *holder = Some(by);
            }
        }
    }

    /// The transaction that holds a key.
    pub fn holder(&self, key: Key) -> Option<TransId> {
        match self.holders.get(place(key)) {
            Some(holder) => *holder,
            None => None,
        }
    }

    /// The transaction that holds the first of these keys that is held.
    pub fn first_holder(&self, sets: &[Set]) -> Option<TransId> {
        for set in sets {
            let holder = self.holder(set.key);
            if holder.is_some() {
                return holder;
            }
        }
        None
    }

    /// Whether an engine has exactly these, held by these and no others.
    pub fn check<E: Writes>(&self, engine: &E) -> Result<(), Stop> {
        for page in 0..PAGES {
            for slot in 0..SLOT_COUNT as u8 {
                self.check_key(engine, Key { page, slot })?;
            }
        }
        Ok(())
    }

    fn check_key<E: Writes>(&self, engine: &E, key: Key) -> Result<(), Stop> {
        let now = engine.key_now(key)?;
        if now.holder != self.holder(key) {
            return Err(Stop::Lost("a key is held by another transaction, or by none"));
        }
        if !self.get(key).is(&now.image.shown()) {
            return Err(Stop::Lost("a key has another value than it was given"));
        }
        Ok(())
    }

    /// Whether the pages of an engine have these. Nothing waits for redo.
    pub fn check_pages<E: Events>(&self, engine: &mut E) -> Result<(), Stop> {
        for number in 0..PAGES {
            if number < engine.pages() {
                let page = engine.page_now(number)?;
                self.check_page(number, &page)?;
            }
        }
        Ok(())
    }

    fn check_page(&self, number: u32, page: &Page) -> Result<(), Stop> {
        for slot in 0..SLOT_COUNT as u8 {
            let image = page.image(slot);
            let key = Key { page: number, slot };
            if !self.get(key).is(&ImageView::of(&image)) {
                return Err(Stop::Lost("a page has another value than it was given"));
            }
        }
        Ok(())
    }
}
