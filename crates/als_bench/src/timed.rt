use crate::split::{Split, add};
use als_engine::{Decision, Events, Fault, Fed, FeedFault, History, NotGiven, Status};
use als_lease::PageLease;
use als_page::Page;
use als_record::{LoggedPage, Lsn, Record, TransId, TransactionRow};
use als_view::Told;
use std::alloc::Global;
use std::rt::Clock;
use std::sync::Wait;
use std::time::{Duration, Instant};

/// A standby of which each event is timed by itself. A clock that fails counts as no time.
///
/// It is no `Observer` of als_share: that has a hook at four of the events, and this one
/// needs one before and one after twelve, with a state of its own. Such hooks on each event of a
/// session would cost time where nothing is timed.
pub struct Timed<'a, R: Clock, E: Events> {
    rt: &'a R,
    events: E,
    split: Split,
    /// A checkpoint was begun since the log was forced last.
    in_checkpoint: bool,
    /// When a page was lent last.
    lent: Option<Instant>,
}

impl<'a, R: Clock, E: Events> Timed<'a, R, E> {
    /// The same standby, timed.
    pub fn new(rt: &'a R, events: E) -> Timed<'a, R, E> {
        Timed {
            rt,
            events,
            split: Split::NOTHING,
            in_checkpoint: false,
            lent: None,
        }
    }

    /// The standby, and what took so long.
    pub fn into_parts(self) -> (E, Split) {
        let Timed {
            rt: _,
            events,
            split,
            in_checkpoint: _,
            lent: _,
        } = self;
        (events, split)
    }

    fn now(&self) -> Option<Instant> {
        Instant::now(self.rt).ok()
    }
}

/// Adds the time since then to a part.
fn took<R: Clock>(rt: &R, part: &mut Duration, start: Option<Instant>) {
    if let Some(start) = start {
        let _ = add(rt, part, start);
    }
}

// Each call is one of the standby's own.
impl<R: Clock, E: Events> Events for Timed<'_, R, E> {
    ghost alone = { E.alone };

    ghost machine = { λ timed. E.machine timed.events };

    ghost tally = { λ timed. E.tally timed.events };

    ghost book = { λ timed. E.book timed.events };

    fn feed(&mut self, piece: &[u8]) -> Result<Fed, FeedFault> {
        let start = self.now();
        let answer = self.events.feed(piece);
        took(self.rt, &mut self.split.fed, start);
        self.split.frames = self.split.frames.saturating_add(1);
        if let Ok(fed) = &answer {
            self.split.records = self.split.records.saturating_add(fed.records as u64);
        }
        answer
    }

    fn resync(&mut self) -> Result<(), Fault> {
        self.events.resync()
    }

    // Redo is timed from the lending of a page to its return: the session redoes it in between.
    fn lend(&mut self, page: u32) -> Result<PageLease, Fault> {
        self.lent = self.now();
        self.events.lend(page)
    }

    fn give(&mut self, lease: PageLease) -> Result<(), NotGiven> {
        let answer = self.events.give(lease);
        took(self.rt, &mut self.split.redone, self.lent);
        answer
    }

    fn recall(&mut self, page: u32) -> Result<(), Fault> {
        self.events.recall(page)
    }

    fn flush(&mut self, page: u32) -> Result<(), Fault> {
        let start = self.now();
        let answer = self.events.flush(page);
        took(self.rt, &mut self.split.flushed, start);
        answer
    }

    fn sync_pages(&mut self) -> Result<(), Fault> {
        let start = self.now();
        let answer = self.events.sync_pages();
        took(self.rt, &mut self.split.flushed, start);
        answer
    }

    fn log_write(&mut self) -> Result<(), Fault> {
        let start = self.now();
        self.in_checkpoint = false;
        let answer = self.events.log_write();
        took(self.rt, &mut self.split.written, start);
        answer
    }

    fn log_sync(&mut self) -> Result<(), Fault> {
        let start = self.now();
        let answer = self.events.log_sync();
        took(self.rt, &mut self.split.synced, start);
        answer
    }

    fn mark_write(&mut self) -> Result<(), Fault> {
        let start = self.now();
        let answer = self.events.mark_write();
        took(self.rt, &mut self.split.marked, start);
        answer
    }

    fn ckpt_begin(&mut self) -> Result<(), Fault> {
        let start = self.now();
        let answer = self.events.ckpt_begin();
        took(self.rt, &mut self.split.checkpointed, start);
        self.in_checkpoint = true;
        answer
    }

    fn ckpt_block(&mut self) -> Result<(), Fault> {
        let start = self.now();
        let answer = self.events.ckpt_block();
        took(self.rt, &mut self.split.checkpointed, start);
        answer
    }

    fn ckpt_publish(&mut self) -> Result<(), Fault> {
        let start = self.now();
        let answer = self.events.ckpt_publish();
        took(self.rt, &mut self.split.checkpointed, start);
        answer
    }

    fn publish_view<W: Wait>(&mut self, rt: &W) -> Result<(), Fault> {
        let start = self.now();
        let answer = self.events.publish_view(rt);
        took(self.rt, &mut self.split.published, start);
        answer
    }

    // The control block is synced twice for a checkpoint.
    fn ctl_sync(&mut self) -> Result<Lsn, Fault> {
        let start = self.now();
        let answer = self.events.ctl_sync();
        if self.in_checkpoint {
            took(self.rt, &mut self.split.checkpointed, start);
        } else {
            took(self.rt, &mut self.split.acknowledged, start);
        }
        answer
    }

    fn ready<W: Wait>(&mut self, rt: &W) -> Result<(), Fault> {
        self.events.ready(rt)
    }

    fn seal(&mut self) -> Result<(), Fault> {
        self.events.seal()
    }

    fn undo_one(&mut self) -> Result<Lsn, Fault> {
        self.events.undo_one()
    }

    fn resolve(&mut self, trans: TransId, verdict: Decision) -> Result<Lsn, Fault> {
        self.events.resolve(trans, verdict)
    }

    fn adopt(&mut self, history: History) -> Result<(), Fault> {
        self.events.adopt(history)
    }

    fn finish(&mut self) -> Result<(), Fault> {
        self.events.finish()
    }

    fn status(&self) -> Status {
        self.events.status()
    }

    fn history(&self) -> History {
        self.events.history()
    }

    fn table(&self, alloc: Global) -> Result<Vec<TransactionRow>, Fault> {
        self.events.table(alloc)
    }

    fn pages(&self) -> u32 {
        self.events.pages()
    }

    fn dirty(&self, from: u32) -> Option<LoggedPage> {
        self.events.dirty(from)
    }

    fn next_pending(&self, from: u32) -> Option<u32> {
        self.events.next_pending(from)
    }

    fn page_now(&mut self, page: u32) -> Result<Page, Fault> {
        self.events.page_now(page)
    }

    fn tell(&self) -> Told {
        self.events.tell()
    }

    fn record_at(&mut self, lsn: Lsn) -> Result<Option<Record>, Fault> {
        self.events.record_at(lsn)
    }
}
