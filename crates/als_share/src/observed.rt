ghost use Rattle.std.specs.Prelude.{◌≡◌};

use crate::counts::Counts;
use crate::observer::Observer;
use als_engine::{Decision, Events, Fault, Fed, FeedFault, History, NotGiven, PageLease, Status};
use als_page::Page;
use als_record::{LoggedPage, Lsn, Record, TransId, TransactionRow};
use als_view::Told;
use std::alloc::Global;
use std::sync::Wait;

/// The same events, each with the same answer, and an observer beside them. It makes no event of its own.
pub struct Observed<O, E> {
    observer: O,
    pub(crate) events: E,
}

// Written out: a derived drop is proved wherever the events are dropped, this one only here.
impl<O: Drop, E: Drop> Drop for Observed<O, E> {
    fn drop(self) {
        let Observed { observer, events } = self;
        drop(observer);
        drop(events);
    }
}

impl<O: Observer + Drop, E: Events> Observed<O, E> {
    /// These events with an observer beside them.
    pub fn new(observer: O, events: E) -> Observed<O, E>
        ensures { result.events ≡ events }
    {
        Observed { observer, events }
    }

    /// The events.
    pub fn end(self) -> E
        ensures { result ≡ self.events }
    {
        let Observed { observer, events } = self;
        drop(observer);
        events
    }
}

impl<O: Observer, E: Counts> Counts for Observed<O, E> {
    fn start_tally(&mut self) {
        self.events.start_tally();
    }
}

impl<O: Observer, E: Events> Events for Observed<O, E> {
    ghost alone = { E.alone };

    ghost machine = { λ w. E.machine w.events };

    ghost tally = { λ w. E.tally w.events };

    ghost book = { λ w. E.book w.events };

    fn feed(&mut self, piece: &[u8]) -> Result<Fed, FeedFault> {
        self.observer.before_feed();
        self.events.feed(piece)
    }

    fn resync(&mut self) -> Result<(), Fault> {
        self.events.resync()
    }

    fn lend(&mut self, page: u32) -> Result<PageLease, Fault> {
        self.events.lend(page)
    }

    fn give(&mut self, lease: PageLease) -> Result<(), NotGiven> {
        self.events.give(lease)
    }

    fn recall(&mut self, page: u32) -> Result<(), Fault> {
        self.events.recall(page)
    }

    fn flush(&mut self, page: u32) -> Result<(), Fault> {
        self.events.flush(page)
    }

    fn sync_pages(&mut self) -> Result<(), Fault> {
        self.events.sync_pages()
    }

    fn log_write(&mut self) -> Result<(), Fault> {
        self.events.log_write()
    }

    fn log_sync(&mut self) -> Result<(), Fault> {
        self.events.log_sync()
    }

    fn mark_write(&mut self) -> Result<(), Fault> {
        self.events.mark_write()
    }

    fn ctl_sync(&mut self) -> Result<Lsn, Fault> {
        match self.events.ctl_sync() {
            Ok(acknowledged) => {
                self.observer.after_ctl_sync(acknowledged);
                Ok(acknowledged)
            }
            Err(fault) => Err(fault),
        }
    }

    fn ckpt_begin(&mut self) -> Result<(), Fault> {
        self.events.ckpt_begin()
    }

    fn ckpt_block(&mut self) -> Result<(), Fault> {
        self.events.ckpt_block()
    }

    fn ckpt_publish(&mut self) -> Result<(), Fault> {
        self.events.ckpt_publish()
    }

    fn publish_view<W: Wait>(&mut self, rt: &W) -> Result<(), Fault> {
        self.events.publish_view(rt)
    }

    fn ready<W: Wait>(&mut self, rt: &W) -> Result<(), Fault> {
        self.events.ready(rt)
    }

    fn seal(&mut self) -> Result<(), Fault> {
        self.events.seal()
    }

    fn undo_one(&mut self) -> Result<Lsn, Fault> {
        self.events.undo_one()
    }

    fn resolve(&mut self, trans: TransId, verdict: Decision) -> Result<Lsn, Fault> {
        self.events.resolve(trans, verdict)
    }

    fn adopt(&mut self, history: History) -> Result<(), Fault> {
        match self.events.adopt(history) {
            Ok(()) => {
                self.observer.after_adopt(history);
                Ok(())
            }
            Err(fault) => Err(fault),
        }
    }

    fn finish(&mut self) -> Result<(), Fault> {
        self.events.finish()
    }

    fn status(&self) -> Status {
        let status = self.events.status();
        self.observer.after_status(&status);
        status
    }

    fn history(&self) -> History {
        self.events.history()
    }

    fn table(&self, alloc: Global) -> Result<Vec<TransactionRow>, Fault> {
        self.events.table(alloc)
    }

    fn pages(&self) -> u32 {
        self.events.pages()
    }

    fn dirty(&self, from: u32) -> Option<LoggedPage> {
        self.events.dirty(from)
    }

    fn next_pending(&self, from: u32) -> Option<u32> {
        self.events.next_pending(from)
    }

    fn tell(&self) -> Told {
        self.events.tell()
    }

    fn page_now(&mut self, page: u32) -> Result<Page, Fault> {
        self.events.page_now(page)
    }

    fn record_at(&mut self, lsn: Lsn) -> Result<Option<Record>, Fault> {
        self.events.record_at(lsn)
    }
}
