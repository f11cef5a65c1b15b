use crate::drawn::{PAGES, drawn_image};
use als_record::{Body, Fault, Image, Key, Lsn, Record, SLOT_COUNT, TransId, encode};
use std::alloc::{AllocError, Global};

/// What a primary writes that commits one transaction after another.
#[derive(Drop)]
pub struct Transactions {
    // The number of each key's value, by page and slot.
    numbers: Vec<Option<u64>>,
    // The last transaction.
    trans: TransId,
}

impl Transactions {
    /// A primary that has written nothing.
    pub fn new(alloc: Global) -> Result<Transactions, AllocError> {
        let count = PAGES as usize * SLOT_COUNT;
        let mut numbers = Vec::with_capacity(alloc, count)?;
        for _ in 0..count {
            numbers.push(None)?;
        }
        Ok(Transactions {
            numbers,
            trans: TransId(0),
        })
    }

    /// Begins the next transaction.
    pub fn begin(&mut self) {
        self.trans = TransId(self.trans.0.saturating_add(1));
    }

    /// Spells an update of a key to the value with a number, and answers its LSN. The text begins
    /// at an offset of the log, and the record is behind its others.
    pub fn update(
        &mut self,
        text: &mut Vec<u8>,
        from: Lsn,
        prev: Lsn,
        key: Key,
        number: u64,
    ) -> Result<Lsn, Fault> {
        let place = key.page as usize * SLOT_COUNT + key.slot as usize;
        let before = match self.numbers.get_mut(place) {
            Some(kept) => kept.replace(number),
            None => None,
        };
        let body = Body::Update {
            key,
            before: image_of(before),
            after: drawn_image(number),
        };
        self.put(text, from, prev, body)
    }

    /// Spells the transaction's commit and its end.
    pub fn commit(&self, text: &mut Vec<u8>, from: Lsn, prev: Lsn) -> Result<(), Fault> {
        let committed = self.put(text, from, prev, Body::Commit)?;
        self.put(text, from, committed, Body::End)?;
        Ok(())
    }

    /// Spells a record of the transaction.
    fn put(&self, text: &mut Vec<u8>, from: Lsn, prev: Lsn, body: Body) -> Result<Lsn, Fault> {
        let lsn = Lsn(from.0.saturating_add(text.len() as u64));
        let logged = Record {
            lsn,
            prev,
            trans: self.trans,
            body,
        };
        encode(&logged, text)?;
        Ok(lsn)
    }
}

/// The value with a number, none without one.
fn image_of(number: Option<u64>) -> Image {
    drawn_image(number?)
}
