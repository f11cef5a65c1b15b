use als_engine::{Events, Fault};
use als_page::Page;
use als_record::SLOT_COUNT;
use als_text::ShownImage;
use std::alloc::{AllocError, Global};

/// A line for each record of the database, in key order; one line `empty` where there is none.
/// Device: a read failed. BadPage: a block is not that of its page. Memory: there was none for the
/// lines.
pub fn listing<E: Events>(alloc: Global, events: &mut E) -> Result<String, Fault> {
    let mut listing = String::new(alloc);
    for number in 0..events.pages() {
        // What reads leave as it is no clause of a shared standby says.
        if number < events.pages() {
            let page = events.page_now(number)?;
            list_page(&mut listing, number, &page)?;
        }
    }
    if listing.is_empty() {
        listing.push_str("empty\n")?;
    }
    Ok(listing)
}

/// A line for each present slot.
fn list_page(listing: &mut String, number: u32, page: &Page) -> Result<(), AllocError> {
    for slot in 0..SLOT_COUNT as u8 {
        let image = page.image(slot);
        if image.is_some() {
            writeln!(listing, "{number}/{slot} {}", ShownImage(&image))?;
        }
    }
    Ok(())
}
