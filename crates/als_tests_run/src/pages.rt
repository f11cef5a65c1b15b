use als_engine::Events;
use als_page::Page;
use als_record::Image;

/// The leases of a serial run are at most as many.
const LIMIT: u64 = 1_000_000;

/// Redoes all that waits, one lease after another. Whether it was.
fn redo_all<E: Events>(events: &mut E) -> bool {
    for _ in 0..LIMIT {
        let Some(page) = events.next_pending(0) else {
            return true;
        };
        if redo_one(events, page).is_none() {
            return false;
        }
    }
    false
}

/// Redoes the first lease of a page.
fn redo_one<E: Events>(events: &mut E, page: u32) -> Option<()> {
    let mut lease = events.lend(page).ok()?;
    // A lease has at most 64 changes.
    for _ in 0..64 {
        if !lease.redo_next() {
            break;
        }
    }
    events.give(lease).ok()
}

/// Feeds a text at once, and redoes it in this thread. What its pages then are, as a number.
pub(crate) fn serial<E: Events>(events: &mut E, text: &[u8]) -> Option<u64> {
    events.feed(text).ok()?;
    if redo_all(events) {
        digest(events)
    } else {
        None
    }
}

/// All pages as they are now, as a number.
pub(crate) fn digest<E: Events>(events: &mut E) -> Option<u64> {
    let mut sum = 1;
    for page in 0..events.pages() {
        sum = mixed(sum, digest_of(events, page)?);
    }
    Some(sum)
}

/// Whether a page has this page_LSN, and this byte alone in its slot 0.
pub(crate) fn is_page<E: Events>(events: &mut E, page: u32, lsn: u64, byte: u8) -> bool {
    if page < events.pages() {
        match events.page_now(page) {
            Ok(page) => page.lsn().0 == lsn && is_byte(&page.image(0), byte),
            Err(_) => false,
        }
    } else {
        false
    }
}

fn is_byte(image: &Image, byte: u8) -> bool {
    match image {
        Some(value) => value.as_slice() == [byte].as_slice(),
        None => false,
    }
}

/// A page as it is now, as a number.
fn digest_of<E: Events>(events: &mut E, page: u32) -> Option<u64> {
    if page < events.pages() {
        match events.page_now(page) {
            Ok(page) => Some(number(&page)),
            Err(_) => None,
        }
    } else {
        None
    }
}

/// Its number, its page_LSN and the images of all slots, as a number.
fn number(page: &Page) -> u64 {
    let mut sum = mixed(u64::from(page.id()), page.lsn().0);
    for slot in 0..15 {
        sum = mixed(sum, image(&page.image(slot)));
    }
    sum
}

fn image(image: &Image) -> u64 {
    match image {
        Some(value) => {
            let mut sum = value.len() as u64;
            for byte in value.as_slice() {
                sum = mixed(sum, u64::from(*byte));
            }
            mixed(sum, 2)
        }
        None => 1,
    }
}

/// One number of two. With either of them it is another one, where the other stays.
fn mixed(one: u64, other: u64) -> u64 {
    let product = (one.wrapping_mul(3) ^ other).wrapping_mul(0x9e37_79b9_7f4a_7c15);
    product ^ (product >> 32)
}
