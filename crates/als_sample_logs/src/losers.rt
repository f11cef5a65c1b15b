use crate::primary::{PAGES, SLOTS, WRITERS};
use crate::small::Small;
use crate::writer::Writer;
use als_record::{Body, Fault, Key, LogHeader, TransId};
use std::alloc::Global;

/// A log of so many updates by so many transactions in turn, at most 256, none of which ends.
pub fn write_losers(alloc: Global, losers: u32, updates: u32) -> Result<Vec<u8>, Fault> {
    let mut writers = Vec::new(alloc);
    for number in 0..losers.min(WRITERS) {
        let mut writer = Writer::idle(alloc);
        writer.trans = TransId(1 + number);
        writers.push(writer)?;
    }
    let mut text = Vec::new(alloc);
    text.extend_from_slice(&LogHeader { pages: PAGES }.encode())?;
    for number in 0..updates {
        put(&mut writers, &mut text, number)?;
    }
    Ok(text)
}

/// The update of this number. Each key has one transaction that writes it.
fn put(writers: &mut Vec<Writer>, text: &mut Vec<u8>, number: u32) -> Result<(), Fault> {
    let count = writers.len().min(WRITERS as usize) as u32;
    if count == 0 {
        return Ok(());
    }
    let keys = (PAGES * SLOTS / count).max(1).saturating_mul(count);
    let place = number % keys.max(1);
    let key = Key {
        page: place / SLOTS,
        slot: (place % SLOTS) as u8,
    };
    let before = match number.checked_sub(keys) {
        Some(earlier) => value(earlier),
        None => Small::absent(),
    };
    let body = Body::Update {
        key,
        before: before.image(),
        after: value(number).image(),
    };
    match writers.get_mut((number % count) as usize) {
        Some(writer) => writer.put(text, body),
        None => Ok(()),
    }
}

/// A value of four bytes.
fn value(number: u32) -> Small {
    Small::new(u64::from(number) << 32, 3)
}
