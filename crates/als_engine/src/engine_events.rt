ghost use Rattle.std.specs.Prelude.{◌≡◌, ⊤, IfOk, IfErr};
ghost use Rattle.als_analysis.specs.Open.{rows_of};
ghost use Rattle.als_engine.specs.declared.fault.Fault.TheVariants as fault;

use crate::engine::Engine;
use crate::events::Events;
use crate::fault::Fault;
use crate::fed::{Fed, FeedFault};
use crate::not_given::NotGiven;
use crate::status::Status;
use als_analysis::OpenRow;
use als_disk::BlockDisk;
use als_epochs::History;
use als_lease::PageLease;
use als_page::Page;
use als_record::{LoggedPage, Lsn, Record, TransId, TransactionRow};
use als_store::Decision;
use als_view::Told;
use std::alloc::Global;
use std::sync::Wait;

/// The rows of a table, copied.
fn rows(alloc: Global, table: &[OpenRow]) -> Result<Vec<TransactionRow>, Fault>
    ensures rows { IfOk result (λ rows. rows.items ≡ rows_of table.now) }
    ensures fails { IfErr result (λ f. f ≡ fault.Memory) }
{
    let rows = table.iter().map(|open| open.row()).collect(alloc)?;
    Ok(rows)
}

// An engine is driven by its owner alone.
impl<D: BlockDisk> Events for Engine<D> {
    ghost alone = { ⊤ };

    ghost machine = { λ engine. engine.machine };

    ghost tally = { λ engine. engine.tally };

    ghost book = { λ engine. engine.book };

    fn feed(&mut self, piece: &[u8]) -> Result<Fed, FeedFault> {
        Engine::feed(self, piece)
    }

    fn resync(&mut self) -> Result<(), Fault> {
        Engine::resync(self)
    }

    fn lend(&mut self, page: u32) -> Result<PageLease, Fault> {
        Engine::lend(self, page)
    }

    fn give(&mut self, lease: PageLease) -> Result<(), NotGiven> {
        Engine::give(self, lease)
    }

    fn recall(&mut self, page: u32) -> Result<(), Fault> {
        Engine::recall(self, page)
    }

    fn flush(&mut self, page: u32) -> Result<(), Fault> {
        Engine::flush(self, page)
    }

    fn sync_pages(&mut self) -> Result<(), Fault> {
        Engine::sync_pages(self)
    }

    fn log_write(&mut self) -> Result<(), Fault> {
        Engine::log_write(self)
    }

    fn log_sync(&mut self) -> Result<(), Fault> {
        Engine::log_sync(self)
    }

    fn mark_write(&mut self) -> Result<(), Fault> {
        Engine::mark_write(self)
    }

    fn ctl_sync(&mut self) -> Result<Lsn, Fault> {
        Engine::ctl_sync(self)
    }

    fn ckpt_begin(&mut self) -> Result<(), Fault> {
        Engine::ckpt_begin(self)
    }

    fn ckpt_block(&mut self) -> Result<(), Fault> {
        Engine::ckpt_block(self)
    }

    fn ckpt_publish(&mut self) -> Result<(), Fault> {
        Engine::ckpt_publish(self)
    }

    fn publish_view<R: Wait>(&mut self, rt: &R) -> Result<(), Fault> {
        Engine::publish_view(self, rt)
    }

    fn ready<R: Wait>(&mut self, rt: &R) -> Result<(), Fault> {
        Engine::ready(self, rt)
    }

    fn adopt(&mut self, history: History) -> Result<(), Fault> {
        Engine::adopt(self, history)
    }

    fn seal(&mut self) -> Result<(), Fault> {
        Engine::seal(self)
    }

    fn undo_one(&mut self) -> Result<Lsn, Fault> {
        Engine::undo_one(self)
    }

    fn resolve(&mut self, trans: TransId, verdict: Decision) -> Result<Lsn, Fault> {
        Engine::resolve(self, trans, verdict)
    }

    fn finish(&mut self) -> Result<(), Fault> {
        Engine::finish(self)
    }

    fn status(&self) -> Status {
        Engine::status(self)
    }

    fn history(&self) -> History {
        Engine::history(self)
    }

    fn table(&self, alloc: Global) -> Result<Vec<TransactionRow>, Fault> {
        rows(alloc, Engine::table(self))
    }

    fn pages(&self) -> u32 {
        Engine::pages(self)
    }

    fn dirty(&self, from: u32) -> Option<LoggedPage> {
        Engine::dirty(self, from)
    }

    fn next_pending(&self, from: u32) -> Option<u32> {
        Engine::next_pending(self, from)
    }

    fn tell(&self) -> Told {
        Engine::tell(self)
    }

    fn page_now(&mut self, page: u32) -> Result<Page, Fault> {
        Engine::page_now(self, page)
    }

    fn record_at(&mut self, lsn: Lsn) -> Result<Option<Record>, Fault> {
        Engine::record_at(self, lsn)
    }
}
