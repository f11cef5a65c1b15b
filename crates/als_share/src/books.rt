ghost use Rattle.std.specs.Prelude.{◌≡◌, ◌<◌};
ghost use Rattle.als_engine.specs.Tally.{place_of, raised, TellsOk, TellsTaken};

use crate::ledgers::{Ledgers, Of};
use crate::part::Part;
use crate::thread_share::Share;
use als_engine::{Event, Fed, FeedFault};
use std::marker::Model;
use std::sync::ledger::Book;

/// What all threads did, of each event. It takes no bytes.
pub struct Books<L: Ledgers> {
    pub(crate) feed: Book<Of<L, 0>>,
    pub(crate) resync: Book<Of<L, 1>>,
    pub(crate) lend: Book<Of<L, 2>>,
    pub(crate) give: Book<Of<L, 3>>,
    pub(crate) recall: Book<Of<L, 4>>,
    pub(crate) flush: Book<Of<L, 5>>,
    pub(crate) sync_pages: Book<Of<L, 6>>,
    pub(crate) log_write: Book<Of<L, 7>>,
    pub(crate) log_sync: Book<Of<L, 8>>,
    pub(crate) mark_write: Book<Of<L, 9>>,
    pub(crate) ctl_sync: Book<Of<L, 10>>,
    pub(crate) ckpt_begin: Book<Of<L, 11>>,
    pub(crate) ckpt_block: Book<Of<L, 12>>,
    pub(crate) ckpt_publish: Book<Of<L, 13>>,
    pub(crate) publish_view: Book<Of<L, 14>>,
    pub(crate) ready: Book<Of<L, 15>>,
    pub(crate) seal: Book<Of<L, 16>>,
    pub(crate) undo_one: Book<Of<L, 17>>,
    pub(crate) finish: Book<Of<L, 18>>,
    pub(crate) resolve: Book<Of<L, 19>>,
    pub(crate) adopt: Book<Of<L, 20>>,
}

impl<L: Ledgers> Model for Books<L> {
    ghost use Rattle.std.specs.Prelude.{ℕ, List, [], ◌∷◌};

    ghost Value = { List ℕ };

    ghost view = { λ b. b.feed.total ∷ b.resync.total ∷ b.lend.total ∷ b.give.total ∷ b.recall.total ∷ b.flush.total ∷ b.sync_pages.total ∷ b.log_write.total ∷ b.log_sync.total ∷ b.mark_write.total ∷ b.ctl_sync.total ∷ b.ckpt_begin.total ∷ b.ckpt_block.total ∷ b.ckpt_publish.total ∷ b.publish_view.total ∷ b.ready.total ∷ b.seal.total ∷ b.undo_one.total ∷ b.finish.total ∷ b.resolve.total ∷ b.adopt.total ∷ [] };
}

// Written out: a derived drop is proved wherever books are dropped, this one only here.
impl<L: Ledgers> Drop for Books<L> {
    fn drop(self) {
        let Books {
            feed: _,
            resync: _,
            lend: _,
            give: _,
            recall: _,
            flush: _,
            sync_pages: _,
            log_write: _,
            log_sync: _,
            mark_write: _,
            ctl_sync: _,
            ckpt_begin: _,
            ckpt_block: _,
            ckpt_publish: _,
            publish_view: _,
            ready: _,
            seal: _,
            undo_one: _,
            finish: _,
            resolve: _,
            adopt: _,
        } = self;
    }
}

impl<L: Ledgers> Books<L> {
    /// Adds to the number of one event, here and in a part.
    fn add(&mut self, part: &mut Part<L>, event: Event, by: u64)
        requires { 0 < part.old.parts }
        ensures all { self.new ≡ raised (place_of event) by self.old }
        ensures mine { part.new ≡ record part.old { tally = raised (place_of event) by part.old.tally } }
    {
        match event {
            Event::Feed => self.feed.add(&mut part.feed, by),
            Event::Resync => self.resync.add(&mut part.resync, by),
            Event::Lend => self.lend.add(&mut part.lend, by),
            Event::Give => self.give.add(&mut part.give, by),
            Event::Recall => self.recall.add(&mut part.recall, by),
            Event::Flush => self.flush.add(&mut part.flush, by),
            Event::SyncPages => self.sync_pages.add(&mut part.sync_pages, by),
            Event::LogWrite => self.log_write.add(&mut part.log_write, by),
            Event::LogSync => self.log_sync.add(&mut part.log_sync, by),
            Event::MarkWrite => self.mark_write.add(&mut part.mark_write, by),
            Event::ControlSync => self.ctl_sync.add(&mut part.ctl_sync, by),
            Event::CkptBegin => self.ckpt_begin.add(&mut part.ckpt_begin, by),
            Event::CkptBlock => self.ckpt_block.add(&mut part.ckpt_block, by),
            Event::CkptPublish => self.ckpt_publish.add(&mut part.ckpt_publish, by),
            Event::PublishView => self.publish_view.add(&mut part.publish_view, by),
            Event::Ready => self.ready.add(&mut part.ready, by),
            Event::Seal => self.seal.add(&mut part.seal, by),
            Event::UndoOne => self.undo_one.add(&mut part.undo_one, by),
            Event::Finish => self.finish.add(&mut part.finish, by),
            Event::Resolve => self.resolve.add(&mut part.resolve, by),
            Event::Adopt => self.adopt.add(&mut part.adopt, by),
        }
    }

    /// Notes an event in a share, if it answered Ok.
    pub fn note<T, E>(&mut self, share: &mut Share<L>, event: Event, answer: &Result<T, E>)
        ensures all { TellsOk event answer.now self.old self.new }
        ensures mine { TellsOk event answer.now share.old share.new }
    {
        if answer.is_ok() {
            self.add(&mut share.part, event, 1);
        }
    }

    /// Notes the bytes that a feed took in a share.
    pub fn note_taken(&mut self, share: &mut Share<L>, answer: &Result<Fed, FeedFault>)
        ensures all { TellsTaken answer.now self.old self.new }
        ensures mine { TellsTaken answer.now share.old share.new }
    {
        let taken = match answer {
            Ok(fed) => fed.taken,
            Err(refusal) => refusal.taken,
        };
        self.add(&mut share.part, Event::Feed, taken as u64);
    }

    /// Changes nothing. All parts together did what the books say.
    pub fn audit(&mut self, all: &mut Part<L>)
        requires { all.old.parts ≡ L.shares }
        ensures { self.old ≡ all.old.tally }
    {
        self.feed.audit(&mut all.feed);
        self.resync.audit(&mut all.resync);
        self.lend.audit(&mut all.lend);
        self.give.audit(&mut all.give);
        self.recall.audit(&mut all.recall);
        self.flush.audit(&mut all.flush);
        self.sync_pages.audit(&mut all.sync_pages);
        self.log_write.audit(&mut all.log_write);
        self.log_sync.audit(&mut all.log_sync);
        self.mark_write.audit(&mut all.mark_write);
        self.ctl_sync.audit(&mut all.ctl_sync);
        self.ckpt_begin.audit(&mut all.ckpt_begin);
        self.ckpt_block.audit(&mut all.ckpt_block);
        self.ckpt_publish.audit(&mut all.ckpt_publish);
        self.publish_view.audit(&mut all.publish_view);
        self.ready.audit(&mut all.ready);
        self.seal.audit(&mut all.seal);
        self.undo_one.audit(&mut all.undo_one);
        self.finish.audit(&mut all.finish);
        self.resolve.audit(&mut all.resolve);
        self.adopt.audit(&mut all.adopt);
    }
}
