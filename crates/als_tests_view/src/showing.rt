ghost use Rattle.std.specs.Prelude.{◌≡◌};
ghost use Rattle.als_view.specs.Views.{book_of};
ghost use Rattle.als_published_log.specs.Keeping.{IsReaderOf, IsSameView};

use crate::written::{Change, image, transaction};
use als_published_log::{Fault, PublishedLog};
use als_record::{Key, Lsn};
use als_view::{Fault as Refusal, Reader};
use std::alloc::Global;
use std::process::Abort;
use std::sync::Wait;
use std::test::*;

fn key(page: u32, slot: u8) -> Key {
    Key { page, slot }
}

/// Takes a transaction of two updates, which is not published. `None`: allocation failed.
fn feed(
    alloc: Global,
    log: &mut PublishedLog,
    trans: u8,
    first: Change,
    second: Change,
) -> Option<()>
    ensures { IsSameView log.old.view log.new.view }
{
    let text = transaction(alloc, log.end(), trans, &[first, second])?;
    log.feed(text.as_slice()).ok()
}

/// A reader that is told what is published finds this byte, or none, after this many commits, the
/// last of which is at this LSN.
fn shows(
    rt: &impl Abort,
    log: &PublishedLog,
    reader: &mut Reader,
    at: Key,
    byte: Option<u8>,
    commits: u64,
    lsn: u64,
)
    requires { IsReaderOf log.now.view reader.old }
    ensures { IsReaderOf log.now.view reader.new }
{
    match log.view().read(reader, at) {
        Ok(answer) => {
            assert!(rt; answer.value == image(byte));
            assert!(rt; answer.commits == commits);
            assert!(rt; answer.lsn == Lsn(lsn));
        }
        Err(_) => panic!(rt; "no answer"),
    }
}

/// Of a key that two transactions write the last write is seen, once it is published; a key outside
/// the database has nothing.
fn shows_in_parts<R: Wait + Abort>(
    rt: &R,
    alloc: Global,
    log: &mut PublishedLog,
    reader: &mut Reader,
) -> Option<()>
    requires { IsReaderOf log.old.view reader.old }
{
    let zero = key(0, 0);
    let one = Change {
        key: zero,
        before: None,
        after: Some(0xaa),
    };
    let other = Change {
        key: key(0, 1),
        before: None,
        after: Some(1),
    };
    feed(alloc, log, 1, one, other)?;
    shows(rt, log, reader, zero, None, 0, 0);
    log.publish(rt).ok()?;
    shows(rt, log, reader, zero, Some(0xaa), 1, 88);
    shows(rt, log, reader, key(0, 1), Some(1), 1, 88);
    let one = Change {
        key: zero,
        before: Some(0xaa),
        after: None,
    };
    let other = Change {
        key: key(1, 14),
        before: None,
        after: Some(3),
    };
    feed(alloc, log, 2, one, other)?;
    shows(rt, log, reader, zero, Some(0xaa), 1, 88);
    log.publish(rt).ok()?;
    shows(rt, log, reader, zero, None, 2, 216);
    shows(rt, log, reader, key(1, 14), Some(3), 2, 216);
    shows(rt, log, reader, key(7, 0), None, 2, 216);
    shows(rt, log, reader, key(0, 15), None, 2, 216);
    Some(())
}

/// A log of a database of two pages with one reader, looked at by it.
fn looked_at<R: Wait + Abort>(rt: &R, alloc: Global) -> Option<()> {
    let Ok((mut log, mut readers)) = PublishedLog::new(alloc, rt, 2, 1) else {
        return None;
    };
    let shown = match readers.pop() {
        Some(mut reader) => shows_in_parts(rt, alloc, &mut log, &mut reader),
        None => None,
    };
    log.close(rt);
    shown
}

#[test]
fn a_log_shows_what_is_published(rt: HostRuntime) {
    let alloc = rt.alloc();
    assert!(rt; looked_at(&rt, alloc).is_some() || looked_at(&rt, alloc).is_some());
}

/// Bytes that are no record, and an update of a value that the key has not.
fn refuses<R: Wait>(rt: &R, alloc: Global) -> Option<(bool, bool)> {
    let (mut log, readers) = PublishedLog::new(alloc, rt, 2, 1).ok()?;
    drop(readers);
    let none = log.feed(&[0; 64]) == Err(Fault::NoRecord);
    let change = Change {
        key: key(0, 0),
        before: Some(9),
        after: None,
    };
    let text = transaction(alloc, log.end(), 1, &[change])?;
    let other = log.feed(text.as_slice()) == Err(Fault::Invalid);
    log.close(rt);
    Some((none, other))
}

#[test]
fn a_log_is_judged(rt: HostRuntime) {
    let alloc = rt.alloc();
    let found = match refuses(&rt, alloc) {
        Some(found) => Some(found),
        None => refuses(&rt, alloc),
    };
    assert!(rt; found == Some((true, true)));
    assert!(rt; Refusal::Warming.number() == 35);
    assert!(rt; Refusal::Warming.name() == "Warming");
}
