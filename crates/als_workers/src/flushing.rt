ghost use Rattle.als_workers.specs.Tallies.{AloneRaise, flush_events};

use crate::gate::{Gate, Point};
use crate::outcome::Halt;
use als_engine::{Events, Fault};
use std::sync::Wait;

/// Writes dirty pages and syncs them, a round each time that the gate lets it pass. A page that is
/// lent, was written already, or whose log is not acknowledged yet, is passed over.
#[tactic(auto, using(crate::proofs::Tallies::none, crate::proofs::Tallies::both))]
pub fn flusher<E: Events, G: Gate, R: Wait>(rt: &R, events: &mut E, gate: &G) -> Halt
    // It makes no other event.
    ensures { AloneRaise flush_events (E.tally events.old) (E.tally events.new) }
{
    for _ in rt.forever() {
        if !gate.pass(Point::Flush) {
            return Halt::Gate;
        }
        if let Err(fault) = flush_dirty(events) {
            return Halt::Refused(fault);
        }
    }
    unreachable!()
}

// Writes each dirty page, and syncs them if any was written.
#[tactic(auto, using(crate::proofs::Tallies::none, crate::proofs::Tallies::one, crate::proofs::Tallies::both))]
fn flush_dirty<E: Events>(events: &mut E) -> Result<(), Fault>
    ensures { AloneRaise flush_events (E.tally events.old) (E.tally events.new) }
{
    let wrote = flush_pages(events)?;
    if wrote {
        events.sync_pages()?;
    }
    Ok(())
}

// Writes each dirty page, in rising order. Whether any was written.
#[tactic(auto, using(crate::proofs::Tallies::none, crate::proofs::Tallies::one, crate::proofs::Tallies::both))]
fn flush_pages<E: Events>(events: &mut E) -> Result<bool, Fault>
    ensures { AloneRaise flush_events (E.tally events.old) (E.tally events.new) }
{
    let mut wrote = false;
    let mut from = 0;
    for _ in 0..events.pages() {
        let Some(row) = events.dirty(from) else {
            break;
        };
        wrote |= flush_page(events, row.page)?;
        from = row.page.saturating_add(1);
    }
    Ok(wrote)
}

// Writes a page. Whether it was written, and not passed over.
#[tactic(auto, using(crate::proofs::Tallies::one))]
fn flush_page<E: Events>(events: &mut E, page: u32) -> Result<bool, Fault>
    ensures { AloneRaise flush_events (E.tally events.old) (E.tally events.new) }
{
    match events.flush(page) {
        Ok(()) => Ok(true),
        Err(Fault::PageLent | Fault::NothingToDo | Fault::LogBehind) => Ok(false),
        Err(fault) => Err(fault),
    }
}
