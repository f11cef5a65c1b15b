ghost use Rattle.std.specs.Prelude.{◌≡◌, ◌≤◌, true, false, IfOk, IfErr, Some};
ghost use Rattle.als_store.specs.Stored.{acknowledged};
ghost use Rattle.als_engine.specs.declared.event.Event.TheVariants as event;
ghost use Rattle.als_engine.specs.Tally.{TellsOk, TellsTaken};
ghost use Rattle.als_engine.specs.Readers.{book_told};
ghost use Rattle.als_engine.specs.Telling.{Stands};
ghost use Rattle.als_share.specs.Ledgers.{CountsNoTakeover};
ghost use Rattle.als_share.specs.Reaching.{ReachesFrom, FollowsFrom, IsToldFrom};

use crate::acknowledger::Acknowledger;
use crate::books::Books;
use crate::ledgers::{Floor, Ledgers};
use crate::thread_share::Share;
use als_engine::{Decision, Event, Events, Fault, Fed, FeedFault, History, NotGiven, PageLease};
use als_page::Page;
use als_record::{Lsn, Record, TransId};
use als_view::Told;
use std::marker::Model;
use std::sync::Wait;
use std::sync::ledger::Book;

/// What is under the lock: an engine that events made of the one that was shared, with the same
/// readers, books that are its tally, and the book of what was acknowledged for a session, which the
/// engine still has. Where threads may not take the database over, no event of a takeover was made.
pub struct Locked<L: Ledgers, E: Events> {
    pub(crate) engine: E,
    pub(crate) books: Books<L>,
    pub(crate) floor: Book<Floor<L>>,
    /// Whether seal, undo, finish and resolve are made. Else they are refused.
    takes_over: bool,
    /// Whether an event was made, or a query that may read a device. Else the engine is as it was
    /// shared.
    touched: bool,
}

impl<L: Ledgers, E: Events> Model for Locked<L, E> {
    ghost use Rattle.std.specs.Prelude.{◌≡◌, ◌≤◌, false, Some};
    ghost use Rattle.als_store.specs.Stored.{acknowledged};
    ghost use Rattle.als_engine.specs.Machine.{Machine};
    ghost use Rattle.als_share.specs.Ledgers.{CountsNoTakeover};
    ghost use Rattle.als_share.specs.Reaching.{IsDriven};

    ghost Value = { Machine };

    ghost view = { λ l. E.machine l.engine };

    ghost invariant = { λ l. (l.books ≡ E.tally l.engine)
        × (E.alone → IsDriven L.takes_over L.start (E.machine l.engine))
        × (E.book l.engine ≡ L.book)
        × (E.alone → l.floor.total ≤ acknowledged (E.machine l.engine).held)
        × (l.takes_over ≡ L.takes_over)
        × (l.touched ≡ false → L.start ≡ Some (E.machine l.engine))
        × (L.takes_over ≡ false → CountsNoTakeover (E.tally l.engine)) };
}

// Written out, as an engine's.
impl<L: Ledgers, E: Events + Drop> Drop for Locked<L, E> {
    fn drop(self) {
        let Locked {
            engine,
            books,
            floor: _,
            takes_over: _,
            touched: _,
        } = self;
        drop(engine);
        drop(books);
    }
}

// For the prover alone: what always holds between two events.
fn stands<E: Events>(engine: &E)
    ensures { E.alone → Stands (E.machine engine.now) }
{
    let _ = engine.status();
}

impl<L: Ledgers, E: Events> Locked<L, E> {
    /// The engine that is shared, with books that say what it counted. Nothing was acknowledged for
    /// a session.
    pub fn new(engine: E, books: Books<L>, floor: Book<Floor<L>>, takes_over: bool) -> Locked<L, E>
        requires start { L.start ≡ Some (E.machine engine) }
        requires books { books ≡ E.tally engine }
        requires book { L.book ≡ E.book engine }
        requires floor { floor.total ≡ 0 }
        requires takes_over { takes_over ≡ L.takes_over }
        requires none { CountsNoTakeover (E.tally engine) }
        ensures { result ≡ E.machine engine }
    {
        Locked {
            engine,
            books,
            floor,
            takes_over,
            touched: false,
        }
    }

    /// The engine, its books, and whether it was touched.
    pub fn into_parts(self) -> (E, Books<L>, Book<Floor<L>>, bool)
        ensures books { result.1 ≡ E.tally result.0 }
        ensures reached { E.alone → ReachesFrom L.start (E.machine result.0) }
        ensures book { E.book result.0 ≡ L.book }
        ensures floor { E.alone → result.2.total ≤ acknowledged (E.machine result.0).held }
        ensures follows { L.takes_over ≡ false → E.alone → FollowsFrom L.start (E.machine result.0) }
        ensures none { L.takes_over ≡ false → CountsNoTakeover (E.tally result.0) }
        ensures untouched { result.3 ≡ false → L.start ≡ Some (E.machine result.0) }
    {
        let Locked {
            engine,
            books,
            floor,
            takes_over: _,
            touched,
        } = self;
        (engine, books, floor, touched)
    }

    /// Whether seal, undo, finish and resolve are refused.
    fn refuses_takeover(&self) -> bool
        ensures { result ≡ false → L.takes_over ≡ true }
    {
        !self.takes_over
    }

    /// One feed.
    pub fn feed(&mut self, share: &mut Share<L>, piece: &[u8]) -> Result<Fed, FeedFault>
        ensures { TellsTaken result share.old share.new }
    {
        let Locked {
            engine,
            books,
            floor: _,
            takes_over: _,
            touched,
        } = self;
        *touched = true;
        let answer = engine.feed(piece);
        stands(engine);
        books.note_taken(share, &answer);
        answer
    }

    /// One `resync`.
    pub fn resync(&mut self, share: &mut Share<L>) -> Result<(), Fault>
        ensures { TellsOk event.Resync result share.old share.new }
    {
        let Locked {
            engine,
            books,
            floor: _,
            takes_over: _,
            touched,
        } = self;
        *touched = true;
        let answer = engine.resync();
        stands(engine);
        books.note(share, Event::Resync, &answer);
        answer
    }

    /// One `lend`.
    pub fn lend(&mut self, share: &mut Share<L>, page: u32) -> Result<PageLease, Fault>
        ensures told { TellsOk event.Lend result share.old share.new }
        ensures fresh { IfOk result (λ lease. lease.done ≡ 0) }
    {
        let Locked {
            engine,
            books,
            floor: _,
            takes_over: _,
            touched,
        } = self;
        *touched = true;
        let answer = engine.lend(page);
        stands(engine);
        books.note(share, Event::Lend, &answer);
        answer
    }

    /// One `give`.
    pub fn give(&mut self, share: &mut Share<L>, lease: PageLease) -> Result<(), NotGiven>
        ensures told { TellsOk event.Give result share.old share.new }
        ensures back { IfErr result (λ refused. refused.lease ≡ lease) }
    {
        let Locked {
            engine,
            books,
            floor: _,
            takes_over: _,
            touched,
        } = self;
        *touched = true;
        let answer = engine.give(lease);
        stands(engine);
        books.note(share, Event::Give, &answer);
        answer
    }

    /// One `recall`.
    pub fn recall(&mut self, share: &mut Share<L>, page: u32) -> Result<(), Fault>
        ensures { TellsOk event.Recall result share.old share.new }
    {
        let Locked {
            engine,
            books,
            floor: _,
            takes_over: _,
            touched,
        } = self;
        *touched = true;
        let answer = engine.recall(page);
        stands(engine);
        books.note(share, Event::Recall, &answer);
        answer
    }

    /// One `flush`.
    pub fn flush(&mut self, share: &mut Share<L>, page: u32) -> Result<(), Fault>
        ensures { TellsOk event.Flush result share.old share.new }
    {
        let Locked {
            engine,
            books,
            floor: _,
            takes_over: _,
            touched,
        } = self;
        *touched = true;
        let answer = engine.flush(page);
        stands(engine);
        books.note(share, Event::Flush, &answer);
        answer
    }

    /// One `sync_pages`.
    pub fn sync_pages(&mut self, share: &mut Share<L>) -> Result<(), Fault>
        ensures { TellsOk event.SyncPages result share.old share.new }
    {
        let Locked {
            engine,
            books,
            floor: _,
            takes_over: _,
            touched,
        } = self;
        *touched = true;
        let answer = engine.sync_pages();
        stands(engine);
        books.note(share, Event::SyncPages, &answer);
        answer
    }

    /// One `log_write`.
    pub fn log_write(&mut self, share: &mut Share<L>) -> Result<(), Fault>
        ensures { TellsOk event.LogWrite result share.old share.new }
    {
        let Locked {
            engine,
            books,
            floor: _,
            takes_over: _,
            touched,
        } = self;
        *touched = true;
        let answer = engine.log_write();
        stands(engine);
        books.note(share, Event::LogWrite, &answer);
        answer
    }

    /// One `log_sync`.
    pub fn log_sync(&mut self, share: &mut Share<L>) -> Result<(), Fault>
        ensures { TellsOk event.LogSync result share.old share.new }
    {
        let Locked {
            engine,
            books,
            floor: _,
            takes_over: _,
            touched,
        } = self;
        *touched = true;
        let answer = engine.log_sync();
        stands(engine);
        books.note(share, Event::LogSync, &answer);
        answer
    }

    /// One `mark_write`.
    pub fn mark_write(&mut self, share: &mut Share<L>) -> Result<(), Fault>
        ensures { TellsOk event.MarkWrite result share.old share.new }
    {
        let Locked {
            engine,
            books,
            floor: _,
            takes_over: _,
            touched,
        } = self;
        *touched = true;
        let answer = engine.mark_write();
        stands(engine);
        books.note(share, Event::MarkWrite, &answer);
        answer
    }

    /// One `ctl_sync`.
    pub fn ctl_sync(&mut self, share: &mut Share<L>) -> Result<Lsn, Fault>
        ensures told { TellsOk event.ControlSync result share.old share.new }
        ensures answer { IfOk result (λ lsn. E.alone → lsn.0 ≡ acknowledged self.new.held) }
    {
        let Locked {
            engine,
            books,
            floor: _,
            takes_over: _,
            touched,
        } = self;
        *touched = true;
        let answer = engine.ctl_sync();
        stands(engine);
        books.note(share, Event::ControlSync, &answer);
        answer
    }

    /// The same for a session, whose acknowledger notes the answer.
    pub fn acknowledge(
        &mut self,
        share: &mut Share<L>,
        acknowledger: &mut Acknowledger<L>,
    ) -> Result<Lsn, Fault>
        ensures told { TellsOk event.ControlSync result share.old share.new }
        ensures vouched { IfOk result (λ lsn. lsn.0 ≤ acknowledger.new) }
        ensures rises { acknowledger.old ≤ acknowledger.new }
    {
        match self.ctl_sync(share) {
            Ok(lsn) => {
                acknowledger.note(&mut self.floor, lsn);
                Ok(lsn)
            }
            Err(fault) => Err(fault),
        }
    }

    /// One `ckpt_begin`.
    pub fn ckpt_begin(&mut self, share: &mut Share<L>) -> Result<(), Fault>
        ensures { TellsOk event.CkptBegin result share.old share.new }
    {
        let Locked {
            engine,
            books,
            floor: _,
            takes_over: _,
            touched,
        } = self;
        *touched = true;
        let answer = engine.ckpt_begin();
        stands(engine);
        books.note(share, Event::CkptBegin, &answer);
        answer
    }

    /// One `ckpt_block`.
    pub fn ckpt_block(&mut self, share: &mut Share<L>) -> Result<(), Fault>
        ensures { TellsOk event.CkptBlock result share.old share.new }
    {
        let Locked {
            engine,
            books,
            floor: _,
            takes_over: _,
            touched,
        } = self;
        *touched = true;
        let answer = engine.ckpt_block();
        stands(engine);
        books.note(share, Event::CkptBlock, &answer);
        answer
    }

    /// One `ckpt_publish`.
    pub fn ckpt_publish(&mut self, share: &mut Share<L>) -> Result<(), Fault>
        ensures { TellsOk event.CkptPublish result share.old share.new }
    {
        let Locked {
            engine,
            books,
            floor: _,
            takes_over: _,
            touched,
        } = self;
        *touched = true;
        let answer = engine.ckpt_publish();
        stands(engine);
        books.note(share, Event::CkptPublish, &answer);
        answer
    }

    /// One `publish_view`.
    pub fn publish_view<R: Wait>(&mut self, rt: &R, share: &mut Share<L>) -> Result<(), Fault>
        ensures { TellsOk event.PublishView result share.old share.new }
    {
        let Locked {
            engine,
            books,
            floor: _,
            takes_over: _,
            touched,
        } = self;
        *touched = true;
        let answer = engine.publish_view(rt);
        stands(engine);
        books.note(share, Event::PublishView, &answer);
        answer
    }

    /// One `ready`.
    pub fn ready<R: Wait>(&mut self, rt: &R, share: &mut Share<L>) -> Result<(), Fault>
        ensures { TellsOk event.Ready result share.old share.new }
    {
        let Locked {
            engine,
            books,
            floor: _,
            takes_over: _,
            touched,
        } = self;
        *touched = true;
        let answer = engine.ready(rt);
        stands(engine);
        books.note(share, Event::Ready, &answer);
        answer
    }

    /// One `seal`, which is refused where threads may not take the database over.
    pub fn seal(&mut self, share: &mut Share<L>) -> Result<(), Fault>
        ensures { TellsOk event.Seal result share.old share.new }
    {
        if self.refuses_takeover() {
            return Err(Fault::NothingToDo);
        }
        let Locked {
            engine,
            books,
            floor: _,
            takes_over: _,
            touched,
        } = self;
        *touched = true;
        let answer = engine.seal();
        stands(engine);
        books.note(share, Event::Seal, &answer);
        answer
    }

    /// One `undo_one`, which is refused where threads may not take the database over.
    pub fn undo_one(&mut self, share: &mut Share<L>) -> Result<Lsn, Fault>
        ensures { TellsOk event.UndoOne result share.old share.new }
    {
        if self.refuses_takeover() {
            return Err(Fault::NothingToDo);
        }
        let Locked {
            engine,
            books,
            floor: _,
            takes_over: _,
            touched,
        } = self;
        *touched = true;
        let answer = engine.undo_one();
        stands(engine);
        books.note(share, Event::UndoOne, &answer);
        answer
    }

    /// One `resolve`, which is refused where threads may not take the database over.
    pub fn resolve(
        &mut self,
        share: &mut Share<L>,
        trans: TransId,
        verdict: Decision,
    ) -> Result<Lsn, Fault>
        ensures { TellsOk event.Resolve result share.old share.new }
    {
        if self.refuses_takeover() {
            return Err(Fault::NothingToDo);
        }
        let Locked {
            engine,
            books,
            floor: _,
            takes_over: _,
            touched,
        } = self;
        *touched = true;
        let answer = engine.resolve(trans, verdict);
        stands(engine);
        books.note(share, Event::Resolve, &answer);
        answer
    }

    /// One `adopt`.
    pub fn adopt(&mut self, share: &mut Share<L>, history: History) -> Result<(), Fault>
        ensures { TellsOk event.Adopt result share.old share.new }
    {
        let Locked {
            engine,
            books,
            floor: _,
            takes_over: _,
            touched,
        } = self;
        *touched = true;
        let answer = engine.adopt(history);
        stands(engine);
        books.note(share, Event::Adopt, &answer);
        answer
    }

    /// One `finish`, which is refused where threads may not take the database over.
    pub fn finish(&mut self, share: &mut Share<L>) -> Result<(), Fault>
        ensures { TellsOk event.Finish result share.old share.new }
    {
        if self.refuses_takeover() {
            return Err(Fault::NothingToDo);
        }
        let Locked {
            engine,
            books,
            floor: _,
            takes_over: _,
            touched,
        } = self;
        *touched = true;
        let answer = engine.finish();
        stands(engine);
        books.note(share, Event::Finish, &answer);
        answer
    }

    /// What its readers are told.
    pub fn tell(&self) -> Told
        ensures book { book_told result ≡ L.book }
        // It is what a machine has published that events made of the one that was shared.
        ensures reached { E.alone → IsToldFrom L.start result }
    {
        self.engine.tell()
    }

    /// The page as it is now. A page past the last one is refused.
    pub fn page_now(&mut self, page: u32) -> Result<Page, Fault> {
        if page >= self.engine.pages() {
            return Err(Fault::BadKey);
        }
        self.touched = true;
        let answer = self.engine.page_now(page);
        stands(&self.engine);
        answer
    }

    /// The held record at an LSN.
    pub fn record_at(&mut self, lsn: Lsn) -> Result<Option<Record>, Fault> {
        self.touched = true;
        let answer = self.engine.record_at(lsn);
        stands(&self.engine);
        answer
    }
}
