use crate::drawn::{PAGES, drawn_key};
use crate::written::Transactions;
use als_published_log::{Fault, PublishedLog};
use als_record::{Key, Lsn, SLOT_COUNT};
use als_view::Reader;
use std::alloc::Global;
use std::sync::Wait;
/// The most readers of a log.
const MOST: usize = 8;

/// A log that is published, and what its primary wrote.
#[derive(Drop)]
pub struct LoggedDatabase {
    pub log: PublishedLog,
    pub primary: Transactions,
}

impl LoggedDatabase {
    /// Ends the view: a log that is dropped leaks its copies.
    pub fn close<R: Wait>(self, rt: &R) {
        let LoggedDatabase { log, primary } = self;
        log.close(rt);
        drop(primary);
    }
}

/// A log in which each key has a value of eight bytes, by one commit for each page, and this many
/// readers of it, 1 to 8.
pub fn filled<R: Wait>(
    rt: &R,
    alloc: Global,
    readers: usize,
) -> Result<(LoggedDatabase, Vec<Reader>), Fault> {
    let readers = if readers == 0 {
        1
    } else if readers > MOST {
        MOST
    } else {
        readers
    };
    let primary = Transactions::new(alloc)?;
    let (log, all) = PublishedLog::new(alloc, rt, PAGES, readers)?;
    let mut filled = LoggedDatabase { log, primary };
    for page in 0..PAGES {
        fill_page(alloc, &mut filled, page)?;
    }
    filled.log.publish(rt)?;
    Ok((filled, all))
}

/// One commit gives each key of a page a value.
fn fill_page(alloc: Global, filled: &mut LoggedDatabase, page: u32) -> Result<(), Fault> {
    let mut text = Vec::new(alloc);
    let from = filled.log.end();
    let mut prev = Lsn(0);
    filled.primary.begin();
    for slot in 0..SLOT_COUNT as u8 {
        let number = u64::from(page) + u64::from(slot);
        let key = Key { page, slot };
        prev = match filled.primary.update(&mut text, from, prev, key, number) {
            Ok(lsn) => lsn,
            Err(_) => return Err(Fault::Memory),
        };
    }
    if filled.primary.commit(&mut text, from, prev).is_err() {
        return Err(Fault::Memory);
    }
    filled.log.feed(text.as_slice())
}

/// The commit with this number, of so many writes, waits for a publish.
pub fn queue_drawn(
    alloc: Global,
    filled: &mut LoggedDatabase,
    number: u32,
    count: u32,
) -> Result<(), Fault> {
    let mut text = Vec::new(alloc);
    let from = filled.log.end();
    let mut prev = Lsn(0);
    filled.primary.begin();
    for place in 0..count {
        let drawn = u64::from(number) << 32 | u64::from(place);
        let key = drawn_key(drawn);
        prev = match filled.primary.update(&mut text, from, prev, key, drawn) {
            Ok(lsn) => lsn,
            Err(_) => return Err(Fault::Memory),
        };
    }
    if filled.primary.commit(&mut text, from, prev).is_err() {
        return Err(Fault::Memory);
    }
    filled.log.feed(text.as_slice())
}
