use crate::disk::Disk;
use crate::stepping::end_of;
use als_analysis::OpenRow;
use als_disk::BlockDisk;
use als_engine::{Engine, Fault, History, State, Status};
use als_page::Page;
use als_record::{FIRST_LSN, Lsn, SLOT_COUNT, encoded_len};
use als_text::{ShownImage, ShownRecord, ShownRow};
use als_world::World;
use std::alloc::{AllocError, Global};
use std::io;
use std::io::Write;

/// `show status`.
pub fn status<W: Write>(output: &mut W, engine: &Engine<Disk>) -> io::Result<()> {
    let Status {
        state,
        end,
        acknowledged,
        pending,
        leases,
        ..
    } = engine.status();
    let (state, end, acknowledged) = (state_name(state), end.0, acknowledged.0);
    writeln!(
        output,
        "state={state} end={end} ack={acknowledged} pending={pending} leases={leases}"
    )
}

/// The state's name as scripts see it.
fn state_name(state: State) -> &'static str {
    match state {
        State::Recovering => "Recovering",
        State::Following => "Following",
        State::Refusing { .. } => "Refusing",
        State::Sealed => "Sealed",
        State::Primary => "Primary",
        State::Stopped => "Stopped",
    }
}

/// `show table`.
pub fn table<W: Write>(output: &mut W, table: &[OpenRow]) -> io::Result<()> {
    if table.is_empty() {
        writeln!(output, "none")?;
    }
    for open in table {
        writeln!(output, "{}", ShownRow(&open.row()))?;
    }
    Ok(())
}

/// `show epochs`.
pub fn epochs<W: Write>(output: &mut W, history: History) -> io::Result<()> {
    write!(output, "epoch {}", history.epoch())?;
    if history.epoch() > 0 {
        write!(output, " seals")?;
    }
    for seal in history.seals() {
        write!(output, " {seal}")?;
    }
    writeln!(output)
}

/// `show dirty`: in rising page.
pub fn dirty<W: Write>(output: &mut W, engine: &Engine<Disk>) -> io::Result<()> {
    let mut from = 0;
    for _ in 0..engine.pages() {
        let Some(row) = engine.dirty(from) else {
            break;
        };
        writeln!(output, "page {} rec={}", row.page, row.rec_lsn.0)?;
        from = row.page.saturating_add(1);
    }
    if from == 0 {
        writeln!(output, "none")?;
    }
    Ok(())
}

/// `show page`, of a page that there is. It is gathered, so that a refusal stands alone. Stopped:
/// the world is down. Device: a read failed. Memory: an allocation failed.
// Generic in the device: with the device named, the prover cannot carry a page across `?`.
pub fn page<D: BlockDisk>(
    alloc: Global,
    world: &mut World<D>,
    number: u32,
) -> Result<String, Fault> {
    let mut listing = String::new(alloc);
    if let Some(page) = world.page_now(number)? {
        writeln!(listing, "page {number} lsn={}", page.lsn().0)?;
        present(&mut listing, number, &page)?;
    }
    Ok(listing)
}

/// `show db`, gathered in the same way.
pub fn database<D: BlockDisk>(alloc: Global, world: &mut World<D>) -> Result<String, Fault> {
    let mut listing = String::new(alloc);
    let mut number = 0;
    for _ in 0..world.config().pages {
        let Some(page) = world.page_now(number)? else {
            break;
        };
        present(&mut listing, number, &page)?;
        number = number.saturating_add(1);
    }
    if listing.is_empty() {
        listing.push_str("empty\n")?;
    }
    Ok(listing)
}

/// A line for each present slot.
fn present(listing: &mut String, number: u32, page: &Page) -> Result<(), AllocError> {
    for slot in 0..SLOT_COUNT as u8 {
        let image = page.image(slot);
        if image.is_some() {
            writeln!(listing, "{number}/{slot} {}", ShownImage(&image))?;
        }
    }
    Ok(())
}

/// `show log`: the records from an LSN on. They are gathered, so that a refusal stands alone.
/// Stopped: the world is down. Device: a read failed. Memory: an allocation failed.
pub fn log(alloc: Global, world: &mut World<Disk>, from: u64) -> Result<String, Fault> {
    let mut listing = String::new(alloc);
    let mut at = FIRST_LSN.0;
    // Each record begins at a byte of its own.
    for _ in FIRST_LSN.0..end_of(world).0 {
        let Some(logged) = world.record_at(Lsn(at))? else {
            break;
        };
        if at >= from {
            writeln!(listing, "{}", ShownRecord(&logged))?;
        }
        at = at.saturating_add(encoded_len(&logged) as u64);
    }
    if listing.is_empty() {
        listing.push_str("none\n")?;
    }
    Ok(listing)
}
