ghost use Rattle.std.specs.Prelude.{◌≡◌};
ghost use Rattle.als_engine.specs.Tally.{no_events};
ghost use Rattle.als_share.specs.Ledgers.{Named, Parted, AreNamed};

use crate::acknowledger::Acknowledger;
use crate::books::Books;
use crate::ledgers::{Floor, Ledgers, Of};
use crate::part::Part;
use std::marker::Model;
use std::sync::ledger::{Blank, Book};

/// A new ledger for each event, and one for what is acknowledged for a session, which are no engine's
/// yet.
pub struct Blanks {
    pub(crate) feed: Blank,
    pub(crate) resync: Blank,
    pub(crate) lend: Blank,
    pub(crate) give: Blank,
    pub(crate) recall: Blank,
    pub(crate) flush: Blank,
    pub(crate) sync_pages: Blank,
    pub(crate) log_write: Blank,
    pub(crate) log_sync: Blank,
    pub(crate) mark_write: Blank,
    pub(crate) ctl_sync: Blank,
    pub(crate) ckpt_begin: Blank,
    pub(crate) ckpt_block: Blank,
    pub(crate) ckpt_publish: Blank,
    pub(crate) publish_view: Blank,
    pub(crate) ready: Blank,
    pub(crate) seal: Blank,
    pub(crate) undo_one: Blank,
    pub(crate) finish: Blank,
    pub(crate) resolve: Blank,
    pub(crate) adopt: Blank,
    pub(crate) floor: Blank,
}

impl Model for Blanks {
    ghost use Rattle.std.specs.Prelude.{◌≡◌, [], ◌∷◌};
    ghost use Rattle.als_share.specs.Ledgers.{Named};

    ghost Value = { Named };

    ghost view = { λ b. record {
      names = b.feed.name ∷ b.resync.name ∷ b.lend.name ∷ b.give.name ∷ b.recall.name ∷ b.flush.name ∷ b.sync_pages.name ∷ b.log_write.name ∷ b.log_sync.name ∷ b.mark_write.name ∷ b.ctl_sync.name ∷ b.ckpt_begin.name ∷ b.ckpt_block.name ∷ b.ckpt_publish.name ∷ b.publish_view.name ∷ b.ready.name ∷ b.seal.name ∷ b.undo_one.name ∷ b.finish.name ∷ b.resolve.name ∷ b.adopt.name ∷ b.floor.name ∷ [];
      parts = b.feed.parts;
    } };

    ghost invariant = { λ b. (b.resync.parts ≡ b.feed.parts) × (b.lend.parts ≡ b.feed.parts) × (b.give.parts ≡ b.feed.parts) × (b.recall.parts ≡ b.feed.parts) × (b.flush.parts ≡ b.feed.parts) × (b.sync_pages.parts ≡ b.feed.parts) × (b.log_write.parts ≡ b.feed.parts) × (b.log_sync.parts ≡ b.feed.parts) × (b.mark_write.parts ≡ b.feed.parts) × (b.ctl_sync.parts ≡ b.feed.parts) × (b.ckpt_begin.parts ≡ b.feed.parts) × (b.ckpt_block.parts ≡ b.feed.parts) × (b.ckpt_publish.parts ≡ b.feed.parts) × (b.publish_view.parts ≡ b.feed.parts) × (b.ready.parts ≡ b.feed.parts) × (b.seal.parts ≡ b.feed.parts) × (b.undo_one.parts ≡ b.feed.parts) × (b.finish.parts ≡ b.feed.parts) × (b.resolve.parts ≡ b.feed.parts) × (b.adopt.parts ≡ b.feed.parts) × (b.floor.parts ≡ 1) };
}

// Written out: a derived drop is proved wherever blanks are dropped, this one only here.
impl Drop for Blanks {
    fn drop(self) {
        let Blanks {
            feed: _,
            resync: _,
            lend: _,
            give: _,
            recall: _,
            flush: _,
            sync_pages: _,
            log_write: _,
            log_sync: _,
            mark_write: _,
            ctl_sync: _,
            ckpt_begin: _,
            ckpt_block: _,
            ckpt_publish: _,
            publish_view: _,
            ready: _,
            seal: _,
            undo_one: _,
            finish: _,
            resolve: _,
            adopt: _,
            floor: _,
        } = self;
    }
}

impl Blanks {
    /// New ledgers, those of the events each cut into this many parts.
    pub fn new(parts: u64) -> Blanks
        ensures { result.parts ≡ parts }
    {
        Blanks {
            feed: Blank::new(parts),
            resync: Blank::new(parts),
            lend: Blank::new(parts),
            give: Blank::new(parts),
            recall: Blank::new(parts),
            flush: Blank::new(parts),
            sync_pages: Blank::new(parts),
            log_write: Blank::new(parts),
            log_sync: Blank::new(parts),
            mark_write: Blank::new(parts),
            ctl_sync: Blank::new(parts),
            ckpt_begin: Blank::new(parts),
            ckpt_block: Blank::new(parts),
            ckpt_publish: Blank::new(parts),
            publish_view: Blank::new(parts),
            ready: Blank::new(parts),
            seal: Blank::new(parts),
            undo_one: Blank::new(parts),
            finish: Blank::new(parts),
            resolve: Blank::new(parts),
            adopt: Blank::new(parts),
            floor: Blank::new(1),
        }
    }

    /// Opens the ledgers: the books, and all parts, with nothing done yet.
    pub fn open<L: Ledgers>(self) -> (Books<L>, Part<L>, Book<Floor<L>>, Acknowledger<L>)
        requires names { AreNamed L.names self.names }
        requires parts { self.parts ≡ L.shares }
        ensures books { result.0 ≡ no_events }
        ensures part { result.1 ≡ record { parts = L.shares; tally = no_events } }
        ensures floor { (result.2.total ≡ 0) × (result.3 ≡ 0) }
    {
        let Blanks {
            feed,
            resync,
            lend,
            give,
            recall,
            flush,
            sync_pages,
            log_write,
            log_sync,
            mark_write,
            ctl_sync,
            ckpt_begin,
            ckpt_block,
            ckpt_publish,
            publish_view,
            ready,
            seal,
            undo_one,
            finish,
            resolve,
            adopt,
            floor,
        } = self;
        let (feed, feed_part) = feed.open::<Of<L, 0>>();
        let (resync, resync_part) = resync.open::<Of<L, 1>>();
        let (lend, lend_part) = lend.open::<Of<L, 2>>();
        let (give, give_part) = give.open::<Of<L, 3>>();
        let (recall, recall_part) = recall.open::<Of<L, 4>>();
        let (flush, flush_part) = flush.open::<Of<L, 5>>();
        let (sync_pages, sync_pages_part) = sync_pages.open::<Of<L, 6>>();
        let (log_write, log_write_part) = log_write.open::<Of<L, 7>>();
        let (log_sync, log_sync_part) = log_sync.open::<Of<L, 8>>();
        let (mark_write, mark_write_part) = mark_write.open::<Of<L, 9>>();
        let (ctl_sync, ctl_sync_part) = ctl_sync.open::<Of<L, 10>>();
        let (ckpt_begin, ckpt_begin_part) = ckpt_begin.open::<Of<L, 11>>();
        let (ckpt_block, ckpt_block_part) = ckpt_block.open::<Of<L, 12>>();
        let (ckpt_publish, ckpt_publish_part) = ckpt_publish.open::<Of<L, 13>>();
        let (publish_view, publish_view_part) = publish_view.open::<Of<L, 14>>();
        let (ready, ready_part) = ready.open::<Of<L, 15>>();
        let (seal, seal_part) = seal.open::<Of<L, 16>>();
        let (undo_one, undo_one_part) = undo_one.open::<Of<L, 17>>();
        let (finish, finish_part) = finish.open::<Of<L, 18>>();
        let (resolve, resolve_part) = resolve.open::<Of<L, 19>>();
        let (adopt, adopt_part) = adopt.open::<Of<L, 20>>();
        let (floor, floor_part) = floor.open::<Floor<L>>();
        (
            Books {
                feed,
                resync,
                lend,
                give,
                recall,
                flush,
                sync_pages,
                log_write,
                log_sync,
                mark_write,
                ctl_sync,
                ckpt_begin,
                ckpt_block,
                ckpt_publish,
                publish_view,
                ready,
                seal,
                undo_one,
                finish,
                resolve,
                adopt,
            },
            Part {
                feed: feed_part,
                resync: resync_part,
                lend: lend_part,
                give: give_part,
                recall: recall_part,
                flush: flush_part,
                sync_pages: sync_pages_part,
                log_write: log_write_part,
                log_sync: log_sync_part,
                mark_write: mark_write_part,
                ctl_sync: ctl_sync_part,
                ckpt_begin: ckpt_begin_part,
                ckpt_block: ckpt_block_part,
                ckpt_publish: ckpt_publish_part,
                publish_view: publish_view_part,
                ready: ready_part,
                seal: seal_part,
                undo_one: undo_one_part,
                finish: finish_part,
                resolve: resolve_part,
                adopt: adopt_part,
            },
            floor,
            Acknowledger::new(floor_part),
        )
    }
}
