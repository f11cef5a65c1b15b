ghost use Rattle.std.specs.Prelude.{◌≡◌};
ghost use Rattle.als_view.specs.Views.{book_of};

use crate::threads::{COMMITS, KEY, READERS, first_seen, watch};
use crate::written::{Change, transaction};
use als_disk::MemDisk;
use als_engine::{Config, Disks, Engine, Events};
use als_view::Reader;
use std::alloc::Global;
use std::sync::Wait;
use std::test::*;
use std::thread;
use std::thread::{Threads, join};

/// A standby of four pages with eight readers, one of which is told.
const CONFIG: Config = Config {
    pages: 4,
    frames: 4,
    pending: 1000,
    readers: READERS as u64,
};

/// How many blocks of the log are written at once, at most.
const BLOCKS: u32 = 64;

/// Acknowledges all of the log.
fn force<E: Events>(events: &mut E) -> bool
    ensures { E.book events.new ≡ E.book events.old }
{
    for _ in 0..BLOCKS {
        if events.log_write().is_err() {
            break;
        }
    }
    events.log_sync().is_ok() && events.mark_write().is_ok() && events.ctl_sync().is_ok()
}

/// The commit with a number writes that one byte. It is fed, acknowledged and published.
fn publish_one<E: Events, R: Wait>(rt: &R, alloc: Global, events: &mut E, number: u8) -> bool
    ensures { E.book events.new ≡ E.book events.old }
{
    let before = number.wrapping_sub(1);
    let change = Change {
        key: KEY,
        before: if before == 0 { None } else { Some(before) },
        after: Some(number),
    };
    let Some(text) = transaction(alloc, events.status().end, number, &[change]) else {
        return false;
    };
    events.feed(text.as_slice()).is_ok() && force(events) && events.publish_view(rt).is_ok()
}

/// Publishes the commits after one number up to another, each by itself.
fn publish_some<E: Events, R: Wait>(rt: &R, alloc: Global, events: &mut E, from: u8, to: u8) -> bool
    ensures { E.book events.new ≡ E.book events.old }
{
    let mut all = true;
    for number in from..to {
        all = publish_one(rt, alloc, events, number.saturating_add(1)) && all;
        thread::yield_now();
    }
    all
}

/// The readers of a standby watch, each in a thread of its own, while it publishes. Another one
/// learns what is told after the first half of the commits. Whether all went well, and how many
/// commits the last one saw first. `None`: memory or a thread was refused.
fn publish_beside<E: Events + Send, R: Threads + Wait + Sync>(
    rt: &R,
    alloc: Global,
    events: &mut E,
    mut readers: Vec<Reader>,
    told_one: Reader,
) -> Option<(bool, u64)>
    requires { book_of told_one ≡ E.book events.old }
{
    let mut handles = Vec::with_capacity(alloc, READERS).ok()?;
    while let Some(mut reader) = readers.pop() {
        let handle = thread::spawn(rt, move || watch(&mut reader)).ok()?;
        handles.push(handle).ok()?;
    }
    let first = publish_some(rt, alloc, events, 0, COMMITS / 2);
    let told = events.tell();
    let (second, seen) = join(
        rt,
        || publish_some(rt, alloc, events, COMMITS / 2, COMMITS),
        move || -> u64
            requires { told.seen.book ≡ book_of told_one }
        { first_seen(told_one, told) },
    );
    let mut all = first && second;
    while let Some(handle) = handles.pop() {
        all = handle.join(rt) && all;
    }
    Some((all, seen))
}

/// The devices of a standby of four pages.
fn devices(alloc: Global) -> Disks<MemDisk> {
    Disks {
        log: MemDisk::new(alloc, 64),
        control: MemDisk::new(alloc, 321),
        pages: MemDisk::new(alloc, 4),
    }
}

/// A new standby, and its readers in threads beside it. `None`: memory or a thread was refused.
fn standby_beside<R: Threads + Wait + Sync>(rt: &R, alloc: Global) -> Option<(bool, u64)> {
    let Ok((mut engine, mut readers)) = Engine::format(alloc, rt, devices(alloc), CONFIG) else {
        return None;
    };
    let done = match readers.pop() {
        Some(one) => publish_beside(rt, alloc, &mut engine, readers, one),
        None => None,
    };
    drop(engine.into_disks(rt));
    done
}

#[test]
fn readers_of_a_standby_never_go_back(rt: HostRuntime) {
    let alloc = rt.alloc();
    let done = match standby_beside(&rt, alloc) {
        Some(done) => Some(done),
        None => standby_beside(&rt, alloc),
    };
    match done {
        Some((all, seen)) => {
            assert!(rt; all);
            assert!(rt; seen >= 50 && seen <= 100, "{seen}");
        }
        None => panic!(rt; "memory or a thread was refused"),
    }
}
