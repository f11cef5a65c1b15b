ghost use Rattle.std.specs.Prelude.{◌≡◌};
ghost use Rattle.als_engine.specs.Readers.{book_told};
ghost use Rattle.als_engine.specs.Publishing.{TellsReaders};
ghost use Rattle.als_share.specs.Ledgers.{nobody_sees};
ghost use Rattle.als_share.specs.Reaching.{IsToldFrom};

use crate::acknowledger::Acknowledger;
use crate::ledgers::Ledgers;
use crate::shared::Shared;
use crate::thread_share::Share;
use als_engine::{Decision, Events, Fault, Fed, FeedFault, History, NotGiven, PageLease, Status};
use als_page::Page;
use als_record::{LoggedPage, Lsn, Record, TransId, TransactionRow};
use als_ship::Voucher;
use als_view::Told;
use std::alloc::Global;
use std::sync::Wait;

/// A thread's way to a shared engine: each event and each query is one turn of the lock.
pub struct Handle<'a, L: Ledgers, E: Events, R: Wait> {
    rt: &'a R,
    shared: &'a Shared<L, E>,
    share: Share<L>,
}

// Written out: a derived drop is proved wherever a handle is dropped, this one only here.
impl<L: Ledgers, E: Events, R: Wait> Drop for Handle<'_, L, E, R> {
    fn drop(self) {
        let Handle {
            rt: _,
            shared: _,
            share,
        } = self;
        drop(share);
    }
}

impl<'a, L: Ledgers, E: Events, R: Wait> Handle<'a, L, E, R> {
    /// A way with this share.
    pub fn new(rt: &'a R, shared: &'a Shared<L, E>, share: Share<L>) -> Handle<'a, L, E, R>
        ensures { result.share ≡ share }
    {
        Handle { rt, shared, share }
    }

    /// The share, which knows what was done by this way.
    pub fn end(self) -> Share<L>
        ensures { result ≡ self.entry.share }
    {
        let Handle {
            rt: _,
            shared: _,
            share,
        } = self;
        share
    }
}

// Others drive the engine too, so of its machine a handle says nothing. Its readers stay the same.
impl<L: Ledgers, E: Events, R: Wait> Events for Handle<'_, L, E, R> {
    ghost use Rattle.als_share.specs.Ledgers.{nobody_sees};

    ghost alone = { ⊥ };

    ghost machine = { λ h. nobody_sees };

    ghost tally = { λ h. h.share };

    ghost book = { λ h. L.book };

    fn feed(&mut self, piece: &[u8]) -> Result<Fed, FeedFault> {
        let mut locked = self.shared.lock.lock(self.rt);
        locked.feed(&mut self.share, piece)
    }

    fn resync(&mut self) -> Result<(), Fault> {
        let mut locked = self.shared.lock.lock(self.rt);
        locked.resync(&mut self.share)
    }

    fn lend(&mut self, page: u32) -> Result<PageLease, Fault> {
        let mut locked = self.shared.lock.lock(self.rt);
        locked.lend(&mut self.share, page)
    }

    fn give(&mut self, lease: PageLease) -> Result<(), NotGiven> {
        let mut locked = self.shared.lock.lock(self.rt);
        locked.give(&mut self.share, lease)
    }

    fn recall(&mut self, page: u32) -> Result<(), Fault> {
        let mut locked = self.shared.lock.lock(self.rt);
        locked.recall(&mut self.share, page)
    }

    fn flush(&mut self, page: u32) -> Result<(), Fault> {
        let mut locked = self.shared.lock.lock(self.rt);
        locked.flush(&mut self.share, page)
    }

    fn sync_pages(&mut self) -> Result<(), Fault> {
        let mut locked = self.shared.lock.lock(self.rt);
        locked.sync_pages(&mut self.share)
    }

    fn log_write(&mut self) -> Result<(), Fault> {
        let mut locked = self.shared.lock.lock(self.rt);
        locked.log_write(&mut self.share)
    }

    fn log_sync(&mut self) -> Result<(), Fault> {
        let mut locked = self.shared.lock.lock(self.rt);
        locked.log_sync(&mut self.share)
    }

    fn mark_write(&mut self) -> Result<(), Fault> {
        let mut locked = self.shared.lock.lock(self.rt);
        locked.mark_write(&mut self.share)
    }

    fn ctl_sync(&mut self) -> Result<Lsn, Fault> {
        let mut locked = self.shared.lock.lock(self.rt);
        locked.ctl_sync(&mut self.share)
    }

    fn ckpt_begin(&mut self) -> Result<(), Fault> {
        let mut locked = self.shared.lock.lock(self.rt);
        locked.ckpt_begin(&mut self.share)
    }

    fn ckpt_block(&mut self) -> Result<(), Fault> {
        let mut locked = self.shared.lock.lock(self.rt);
        locked.ckpt_block(&mut self.share)
    }

    fn ckpt_publish(&mut self) -> Result<(), Fault> {
        let mut locked = self.shared.lock.lock(self.rt);
        locked.ckpt_publish(&mut self.share)
    }

    fn publish_view<W: Wait>(&mut self, rt: &W) -> Result<(), Fault> {
        let mut locked = self.shared.lock.lock(self.rt);
        locked.publish_view(rt, &mut self.share)
    }

    fn ready<W: Wait>(&mut self, rt: &W) -> Result<(), Fault> {
        let mut locked = self.shared.lock.lock(self.rt);
        locked.ready(rt, &mut self.share)
    }

    fn seal(&mut self) -> Result<(), Fault> {
        let mut locked = self.shared.lock.lock(self.rt);
        locked.seal(&mut self.share)
    }

    fn undo_one(&mut self) -> Result<Lsn, Fault> {
        let mut locked = self.shared.lock.lock(self.rt);
        locked.undo_one(&mut self.share)
    }

    fn resolve(&mut self, trans: TransId, verdict: Decision) -> Result<Lsn, Fault> {
        let mut locked = self.shared.lock.lock(self.rt);
        locked.resolve(&mut self.share, trans, verdict)
    }

    fn adopt(&mut self, history: History) -> Result<(), Fault> {
        let mut locked = self.shared.lock.lock(self.rt);
        locked.adopt(&mut self.share, history)
    }

    fn finish(&mut self) -> Result<(), Fault> {
        let mut locked = self.shared.lock.lock(self.rt);
        locked.finish(&mut self.share)
    }

    fn status(&self) -> Status {
        self.shared.lock.lock(self.rt).engine.status()
    }

    fn history(&self) -> History {
        self.shared.lock.lock(self.rt).engine.history()
    }

    fn table(&self, alloc: Global) -> Result<Vec<TransactionRow>, Fault> {
        self.shared.lock.lock(self.rt).engine.table(alloc)
    }

    fn pages(&self) -> u32 {
        self.shared.lock.lock(self.rt).engine.pages()
    }

    fn dirty(&self, from: u32) -> Option<LoggedPage> {
        self.shared.lock.lock(self.rt).engine.dirty(from)
    }

    fn next_pending(&self, from: u32) -> Option<u32> {
        self.shared.lock.lock(self.rt).engine.next_pending(from)
    }

    fn tell(&self) -> Told
        ensures tells { ⊥ → TellsReaders nobody_sees result }
        ensures book { book_told result ≡ L.book }
        // Whoever drives the engine: it is what a machine has published that events made of the one
        // that was shared.
        ensures reached { E.alone → IsToldFrom L.start result }
    {
        self.shared.lock.lock(self.rt).tell()
    }

    fn page_now(&mut self, page: u32) -> Result<Page, Fault> {
        self.shared.lock.lock(self.rt).page_now(page)
    }

    fn record_at(&mut self, lsn: Lsn) -> Result<Option<Record>, Fault> {
        self.shared.lock.lock(self.rt).record_at(lsn)
    }
}

// An answer that it gave stays acknowledged, whoever else drives the engine.
impl<'a, L: Ledgers, E: Events, R: Wait> Voucher<Handle<'a, L, E, R>> for Acknowledger<L> {
    ghost floor = { λ a. a };

    fn acknowledge(&mut self, events: &mut Handle<'a, L, E, R>) -> Result<Lsn, Fault> {
        let mut locked = events.shared.lock.lock(events.rt);
        locked.acknowledge(&mut events.share, self)
    }
}
