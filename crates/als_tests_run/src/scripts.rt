ghost use Rattle.std.specs.Prelude.{◌≡◌};
ghost use Rattle.als_view.specs.Views.{book_of};

use crate::answers::Answers;
use crate::spelled::Spelled;
use crate::standbys::TEXT;
use als_engine::{Decision, Event, Events, History, PageLease, Reader};
use als_record::{Key, Lsn, TransId};
use std::alloc::Global;
use std::sync::Wait;

/// A key that T1 writes, and one that T2 does.
const OLD_KEY: Key = Key { page: 0, slot: 0 };

const NEW_KEY: Key = Key { page: 1, slot: 1 };

/// The first bytes of the text: a record and 14 bytes of the next one.
const FIRST_PIECE: usize = 50;

/// What is fed behind the log that the standby was opened with, from 108 on. T2 updates 1/0 (108), 1/1
/// (144) and 2/0 (180), commits (216) and ends (244). T3 updates 3/2 (272) and stays unended. T4 updates
/// 3/3 (308) and is prepared (344).
pub(crate) fn text(alloc: Global) -> Option<Vec<u8>> {
    let mut spelled = Spelled::new(alloc, Lsn(108));
    spelled.begin(2);
    spelled.update(1, 0, None, Some(0x11));
    spelled.update(1, 1, None, Some(0x22));
    spelled.update(2, 0, None, Some(0x33));
    spelled.commit();
    spelled.end();
    spelled.begin(3);
    spelled.update(3, 2, None, Some(0x44));
    spelled.begin(4);
    spelled.update(3, 3, None, Some(0x55));
    spelled.prepare();
    spelled.text()
}

/// What is done with a standby.
#[derive(Clone, Copy)]
pub(crate) enum Scene<'a> {
    /// All events and all queries, of a standby that was opened over a log of one change, and this
    /// text behind it.
    Whole(&'a [u8]),
    /// A commit is fed, acknowledged and published, and then read.
    Published,
    /// After a crash the recovery is ended, and the commit is read.
    Recovered,
}

/// Plays a scene: what each event and each query answers.
pub(crate) fn play<E: Events, R: Wait>(
    rt: &R,
    alloc: Global,
    events: &mut E,
    reader: &mut Reader,
    scene: Scene<'_>,
) -> Answers
    requires { book_of reader.old ≡ E.book events.old }
    ensures { book_of reader.new ≡ book_of reader.old }
{
    let mut answers = Answers::new(alloc);
    match scene {
        Scene::Whole(text) => play_whole(rt, alloc, events, reader, &mut answers, text),
        Scene::Published => publish(rt, events, reader, &mut answers),
        Scene::Recovered => read_again(rt, events, reader, &mut answers),
    }
    answers
}

/// Each event and each query with arguments on which its answer depends.
fn play_whole<E: Events, R: Wait>(
    rt: &R,
    alloc: Global,
    events: &mut E,
    reader: &mut Reader,
    answers: &mut Answers,
    text: &[u8],
)
    requires { book_of reader.old ≡ E.book events.old }
    ensures { book_of reader.new ≡ book_of reader.old }
{
    read(events, reader, answers, NEW_KEY);
    recover(rt, events, answers);
    read(events, reader, answers, OLD_KEY);
    feed(alloc, events, answers, text);
    look(alloc, events, answers);
    lease(events, answers);
    acknowledge(rt, events, answers);
    read(events, reader, answers, NEW_KEY);
    write_pages(events, answers);
    checkpoint(events, answers);
    adopt(events, answers);
    seal(events, answers);
    undo(events, answers);
    finish(events, answers);
    decide(events, answers);
}

/// A commit is fed, acknowledged and published.
fn publish<E: Events, R: Wait>(rt: &R, events: &mut E, reader: &mut Reader, answers: &mut Answers)
    requires { book_of reader.old ≡ E.book events.old }
    ensures { book_of reader.new ≡ book_of reader.old }
{
    answers.fed(events.feed(&TEXT));
    answers.unit(Event::PublishView, events.publish_view(rt));
    read(events, reader, answers, OLD_KEY);
    force(events, answers);
    answers.unit(Event::PublishView, events.publish_view(rt));
    read(events, reader, answers, OLD_KEY);
}

/// The recovery is ended.
fn read_again<E: Events, R: Wait>(
    rt: &R,
    events: &mut E,
    reader: &mut Reader,
    answers: &mut Answers,
)
    requires { book_of reader.old ≡ E.book events.old }
    ensures { book_of reader.new ≡ book_of reader.old }
{
    read(events, reader, answers, OLD_KEY);
    redo(events, answers, 0);
    answers.unit(Event::Ready, events.ready(rt));
    read(events, reader, answers, OLD_KEY);
}

/// What a reader is answered that learns what is told.
fn read<E: Events>(events: &E, reader: &mut Reader, answers: &mut Answers, key: Key)
    requires { book_of reader.old ≡ E.book events.now }
    ensures { book_of reader.new ≡ book_of reader.old }
{
    reader.learn(events.tell());
    answers.read(reader.get(key));
}

/// The redo of a whole lease.
fn redone(lease: PageLease) -> PageLease {
    let mut lease = lease;
    // A lease has at most 64 changes.
    for _ in 0..64 {
        if !lease.redo_next() {
            break;
        }
    }
    lease
}

/// Lends a page, redoes its lease and gives it.
fn redo<E: Events>(events: &mut E, answers: &mut Answers, page: u32)
    ensures { E.book events.new ≡ E.book events.old }
{
    if let Some(lease) = answers.lent(events.lend(page)) {
        answers.given(events.give(redone(lease)));
    }
}

/// The end of the recovery.
fn recover<E: Events, R: Wait>(rt: &R, events: &mut E, answers: &mut Answers)
    ensures { E.book events.new ≡ E.book events.old }
{
    answers.status(events.status());
    answers.fed(events.feed(&[0; 3]));
    answers.unit(Event::Ready, events.ready(rt));
    redo(events, answers, 0);
    answers.unit(Event::Ready, events.ready(rt));
    answers.status(events.status());
}

/// The log comes in two pieces, and then bytes that are no record.
fn feed<E: Events>(alloc: Global, events: &mut E, answers: &mut Answers, text: &[u8])
    ensures { E.book events.new ≡ E.book events.old }
{
    let (first, rest) = text.split_at(FIRST_PIECE.min(text.len()));
    answers.fed(events.feed(first));
    answers.status(events.status());
    answers.fed(events.feed(rest));
    answers.fed(events.feed(&[0; 5]));
    answers.status(events.status());
    answers.unit(Event::Resync, events.resync());
    answers.table(events.table(alloc));
}

/// What waits and what is dirty, and records by their LSN.
fn look<E: Events>(alloc: Global, events: &mut E, answers: &mut Answers)
    ensures { E.book events.new ≡ E.book events.old }
{
    answers.note(u64::from(events.pages()));
    answers.page_id(events.next_pending(0));
    answers.page_id(events.next_pending(2));
    answers.page_id(events.next_pending(3));
    answers.dirty(events.dirty(1));
    answers.dirty(events.dirty(3));
    answers.record(events.record_at(Lsn(144)));
    answers.record(events.record_at(Lsn(272)));
    answers.record(events.record_at(Lsn(273)));
    answers.table(events.table(alloc));
}

/// A lease that is recalled, and leases that are given.
fn lease<E: Events>(events: &mut E, answers: &mut Answers)
    ensures { E.book events.new ≡ E.book events.old }
{
    answers.unit(Event::Recall, events.recall(1));
    if let Some(lease) = answers.lent(events.lend(1)) {
        redo(events, answers, 1);
        answers.unit(Event::Recall, events.recall(2));
        answers.unit(Event::Recall, events.recall(1));
        answers.given(events.give(lease));
    }
    redo(events, answers, 2);
    redo(events, answers, 1);
    redo(events, answers, 0);
    answers.page_id(events.next_pending(0));
}

/// The log is forced, and its commits are published.
fn acknowledge<E: Events, R: Wait>(rt: &R, events: &mut E, answers: &mut Answers)
    ensures { E.book events.new ≡ E.book events.old }
{
    answers.unit(Event::Flush, events.flush(1));
    answers.unit(Event::LogWrite, events.log_write());
    answers.unit(Event::LogWrite, events.log_write());
    answers.unit(Event::LogSync, events.log_sync());
    answers.unit(Event::PublishView, events.publish_view(rt));
    answers.unit(Event::MarkWrite, events.mark_write());
    answers.unit(Event::MarkWrite, events.mark_write());
    answers.lsn(Event::ControlSync, events.ctl_sync());
    answers.unit(Event::PublishView, events.publish_view(rt));
    answers.unit(Event::PublishView, events.publish_view(rt));
}

/// A page as it is now.
fn page<E: Events>(events: &mut E, answers: &mut Answers, page: u32)
    ensures { E.book events.new ≡ E.book events.old }
{
    if page < events.pages() {
        answers.page(events.page_now(page));
    }
}

/// Pages are shown, written and synced.
fn write_pages<E: Events>(events: &mut E, answers: &mut Answers)
    ensures { E.book events.new ≡ E.book events.old }
{
    page(events, answers, 1);
    page(events, answers, 3);
    answers.unit(Event::Flush, events.flush(3));
    answers.unit(Event::Flush, events.flush(1));
    answers.unit(Event::Flush, events.flush(1));
    answers.unit(Event::SyncPages, events.sync_pages());
    answers.dirty(events.dirty(0));
    answers.dirty(events.dirty(1));
}

/// A checkpoint.
fn checkpoint<E: Events>(events: &mut E, answers: &mut Answers)
    ensures { E.book events.new ≡ E.book events.old }
{
    answers.unit(Event::CkptBlock, events.ckpt_block());
    answers.unit(Event::CkptBegin, events.ckpt_begin());
    answers.unit(Event::CkptBegin, events.ckpt_begin());
    answers.unit(Event::CkptBlock, events.ckpt_block());
    answers.unit(Event::CkptPublish, events.ckpt_publish());
    answers.lsn(Event::ControlSync, events.ctl_sync());
    answers.unit(Event::CkptPublish, events.ckpt_publish());
    answers.unit(Event::CkptPublish, events.ckpt_publish());
}

/// The history of one takeover.
fn history_at(seal: Lsn) -> History {
    let mut history = History::empty();
    if history.takes(seal) {
        history.push(seal);
    }
    history
}

/// The history of another node is adopted.
fn adopt<E: Events>(events: &mut E, answers: &mut Answers)
    ensures { E.book events.new ≡ E.book events.old }
{
    answers.history(events.history());
    answers.unit(Event::Adopt, events.adopt(history_at(Lsn(371))));
    answers.unit(Event::Adopt, events.adopt(history_at(Lsn(372))));
    answers.unit(Event::Adopt, events.adopt(history_at(Lsn(372))));
    answers.unit(Event::Adopt, events.adopt(history_at(Lsn(373))));
    answers.history(events.history());
}

/// The log is sealed.
fn seal<E: Events>(events: &mut E, answers: &mut Answers)
    ensures { E.book events.new ≡ E.book events.old }
{
    answers.lsn(Event::UndoOne, events.undo_one());
    answers.unit(Event::Finish, events.finish());
    answers.unit(Event::Seal, events.seal());
    answers.unit(Event::Seal, events.seal());
    answers.lsn(Event::Resolve, events.resolve(TransId(4), Decision::Commit));
    answers.fed(events.feed(&[0; 7]));
    answers.status(events.status());
}

/// The unended transaction is undone.
fn undo<E: Events>(events: &mut E, answers: &mut Answers)
    ensures { E.book events.new ≡ E.book events.old }
{
    answers.lsn(Event::UndoOne, events.undo_one());
    answers.record(events.record_at(Lsn(372)));
    answers.lsn(Event::UndoOne, events.undo_one());
    answers.lsn(Event::UndoOne, events.undo_one());
    redo(events, answers, 3);
    answers.unit(Event::Finish, events.finish());
}

/// The takeover ends.
fn finish<E: Events>(events: &mut E, answers: &mut Answers)
    ensures { E.book events.new ≡ E.book events.old }
{
    force(events, answers);
    answers.unit(Event::Finish, events.finish());
    answers.unit(Event::Finish, events.finish());
    answers.status(events.status());
}

/// The transaction in doubt is committed, and ends.
fn decide<E: Events>(events: &mut E, answers: &mut Answers)
    ensures { E.book events.new ≡ E.book events.old }
{
    answers.lsn(
        Event::Resolve,
        events.resolve(TransId(3), Decision::Rollback),
    );
    answers.lsn(Event::Resolve, events.resolve(TransId(4), Decision::Commit));
    answers.lsn(Event::Resolve, events.resolve(TransId(4), Decision::Commit));
    answers.lsn(Event::UndoOne, events.undo_one());
    answers.lsn(Event::UndoOne, events.undo_one());
    answers.status(events.status());
}

/// Writes a block of the log, and acknowledges it.
fn force<E: Events>(events: &mut E, answers: &mut Answers)
    ensures { E.book events.new ≡ E.book events.old }
{
    answers.unit(Event::LogWrite, events.log_write());
    answers.unit(Event::LogSync, events.log_sync());
    answers.unit(Event::MarkWrite, events.mark_write());
    answers.lsn(Event::ControlSync, events.ctl_sync());
}
