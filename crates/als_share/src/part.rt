ghost use Rattle.std.specs.Prelude.{◌≡◌, ◌+◌, ◌<◌};
ghost use Rattle.als_engine.specs.Tally.{no_events};
ghost use Rattle.als_share.specs.Ledgers.{Parted, plus};

use crate::ledgers::{Ledgers, Of};
use std::marker::Model;
use std::sync::ledger::Share;

/// Some parts of each ledger, as many of one as of another, with what was done by them of each
/// event.
pub struct Part<L: Ledgers> {
    pub(crate) feed: Share<Of<L, 0>>,
    pub(crate) resync: Share<Of<L, 1>>,
    pub(crate) lend: Share<Of<L, 2>>,
    pub(crate) give: Share<Of<L, 3>>,
    pub(crate) recall: Share<Of<L, 4>>,
    pub(crate) flush: Share<Of<L, 5>>,
    pub(crate) sync_pages: Share<Of<L, 6>>,
    pub(crate) log_write: Share<Of<L, 7>>,
    pub(crate) log_sync: Share<Of<L, 8>>,
    pub(crate) mark_write: Share<Of<L, 9>>,
    pub(crate) ctl_sync: Share<Of<L, 10>>,
    pub(crate) ckpt_begin: Share<Of<L, 11>>,
    pub(crate) ckpt_block: Share<Of<L, 12>>,
    pub(crate) ckpt_publish: Share<Of<L, 13>>,
    pub(crate) publish_view: Share<Of<L, 14>>,
    pub(crate) ready: Share<Of<L, 15>>,
    pub(crate) seal: Share<Of<L, 16>>,
    pub(crate) undo_one: Share<Of<L, 17>>,
    pub(crate) finish: Share<Of<L, 18>>,
    pub(crate) resolve: Share<Of<L, 19>>,
    pub(crate) adopt: Share<Of<L, 20>>,
}

impl<L: Ledgers> Model for Part<L> {
    ghost use Rattle.std.specs.Prelude.{◌≡◌, [], ◌∷◌};
    ghost use Rattle.als_share.specs.Ledgers.{Parted};

    ghost Value = { Parted };

    ghost view = { λ p. record {
      parts = p.feed.parts;
      tally = p.feed.amount ∷ p.resync.amount ∷ p.lend.amount ∷ p.give.amount ∷ p.recall.amount ∷ p.flush.amount ∷ p.sync_pages.amount ∷ p.log_write.amount ∷ p.log_sync.amount ∷ p.mark_write.amount ∷ p.ctl_sync.amount ∷ p.ckpt_begin.amount ∷ p.ckpt_block.amount ∷ p.ckpt_publish.amount ∷ p.publish_view.amount ∷ p.ready.amount ∷ p.seal.amount ∷ p.undo_one.amount ∷ p.finish.amount ∷ p.resolve.amount ∷ p.adopt.amount ∷ [];
    } };

    ghost invariant = { λ p. (p.resync.parts ≡ p.feed.parts) × (p.lend.parts ≡ p.feed.parts) × (p.give.parts ≡ p.feed.parts) × (p.recall.parts ≡ p.feed.parts) × (p.flush.parts ≡ p.feed.parts) × (p.sync_pages.parts ≡ p.feed.parts) × (p.log_write.parts ≡ p.feed.parts) × (p.log_sync.parts ≡ p.feed.parts) × (p.mark_write.parts ≡ p.feed.parts) × (p.ctl_sync.parts ≡ p.feed.parts) × (p.ckpt_begin.parts ≡ p.feed.parts) × (p.ckpt_block.parts ≡ p.feed.parts) × (p.ckpt_publish.parts ≡ p.feed.parts) × (p.publish_view.parts ≡ p.feed.parts) × (p.ready.parts ≡ p.feed.parts) × (p.seal.parts ≡ p.feed.parts) × (p.undo_one.parts ≡ p.feed.parts) × (p.finish.parts ≡ p.feed.parts) × (p.resolve.parts ≡ p.feed.parts) × (p.adopt.parts ≡ p.feed.parts) };
}

// Written out: a derived drop is proved wherever a part is dropped, this one only here.
impl<L: Ledgers> Drop for Part<L> {
    fn drop(self) {
        let Part {
            feed: _,
            resync: _,
            lend: _,
            give: _,
            recall: _,
            flush: _,
            sync_pages: _,
            log_write: _,
            log_sync: _,
            mark_write: _,
            ctl_sync: _,
            ckpt_begin: _,
            ckpt_block: _,
            ckpt_publish: _,
            publish_view: _,
            ready: _,
            seal: _,
            undo_one: _,
            finish: _,
            resolve: _,
            adopt: _,
        } = self;
    }
}

impl<L: Ledgers> Part<L> {
    /// Splits off one part, with nothing done by it.
    pub fn split(&mut self) -> Part<L>
        requires { 1 < self.old.parts }
        ensures one { result ≡ record { parts = 1; tally = no_events } }
        ensures left { self.new.parts + 1 ≡ self.old.parts }
        ensures same { self.new.tally ≡ self.old.tally }
    {
        Part {
            feed: self.feed.split_off(1, 0),
            resync: self.resync.split_off(1, 0),
            lend: self.lend.split_off(1, 0),
            give: self.give.split_off(1, 0),
            recall: self.recall.split_off(1, 0),
            flush: self.flush.split_off(1, 0),
            sync_pages: self.sync_pages.split_off(1, 0),
            log_write: self.log_write.split_off(1, 0),
            log_sync: self.log_sync.split_off(1, 0),
            mark_write: self.mark_write.split_off(1, 0),
            ctl_sync: self.ctl_sync.split_off(1, 0),
            ckpt_begin: self.ckpt_begin.split_off(1, 0),
            ckpt_block: self.ckpt_block.split_off(1, 0),
            ckpt_publish: self.ckpt_publish.split_off(1, 0),
            publish_view: self.publish_view.split_off(1, 0),
            ready: self.ready.split_off(1, 0),
            seal: self.seal.split_off(1, 0),
            undo_one: self.undo_one.split_off(1, 0),
            finish: self.finish.split_off(1, 0),
            resolve: self.resolve.split_off(1, 0),
            adopt: self.adopt.split_off(1, 0),
        }
    }

    /// Puts another part to this one, with what was done by it.
    pub fn merge(&mut self, other: Part<L>)
        ensures parts { self.new.parts ≡ self.old.parts + other.parts }
        ensures tally { self.new.tally ≡ plus self.old.tally other.tally }
    {
        let Part {
            feed,
            resync,
            lend,
            give,
            recall,
            flush,
            sync_pages,
            log_write,
            log_sync,
            mark_write,
            ctl_sync,
            ckpt_begin,
            ckpt_block,
            ckpt_publish,
            publish_view,
            ready,
            seal,
            undo_one,
            finish,
            resolve,
            adopt,
        } = other;
        self.feed.merge(feed);
        self.resync.merge(resync);
        self.lend.merge(lend);
        self.give.merge(give);
        self.recall.merge(recall);
        self.flush.merge(flush);
        self.sync_pages.merge(sync_pages);
        self.log_write.merge(log_write);
        self.log_sync.merge(log_sync);
        self.mark_write.merge(mark_write);
        self.ctl_sync.merge(ctl_sync);
        self.ckpt_begin.merge(ckpt_begin);
        self.ckpt_block.merge(ckpt_block);
        self.ckpt_publish.merge(ckpt_publish);
        self.publish_view.merge(publish_view);
        self.ready.merge(ready);
        self.seal.merge(seal);
        self.undo_one.merge(undo_one);
        self.finish.merge(finish);
        self.resolve.merge(resolve);
        self.adopt.merge(adopt);
    }
}
