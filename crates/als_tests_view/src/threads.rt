ghost use Rattle.std.specs.Prelude.{◌≡◌};
ghost use Rattle.als_view.specs.Views.{book_of};
ghost use Rattle.als_published_log.specs.Keeping.{IsSameView};

use crate::written::{Change, image, transaction};
use als_published_log::PublishedLog;
use als_record::Key;
use als_view::{Reader, Told};
use std::alloc::Global;
use std::sync::Wait;
use std::test::*;
use std::thread;
use std::thread::{Threads, join};

/// The key that each commit writes.
pub const KEY: Key = Key { page: 0, slot: 0 };

/// How many commits are published.
pub const COMMITS: u8 = 100;

/// How many readers have threads of their own.
pub const READERS: usize = 8;

/// How often a reader looks at most.
const LOOKS: u64 = 10_000_000;

/// The commit with a number writes that one byte, and is published at once.
fn publish_one<R: Wait>(rt: &R, alloc: Global, log: &mut PublishedLog, number: u8) -> bool
    ensures { IsSameView log.old.view log.new.view }
{
    let before = number.wrapping_sub(1);
    let change = Change {
        key: KEY,
        before: if before == 0 { None } else { Some(before) },
        after: Some(number),
    };
    let Some(text) = transaction(alloc, log.end(), number, &[change]) else {
        return false;
    };
    log.feed(text.as_slice()).is_ok() && log.publish(rt).is_ok()
}

/// Publishes the commits after one number up to another, each by itself.
fn publish_some<R: Wait>(rt: &R, alloc: Global, log: &mut PublishedLog, from: u8, to: u8) -> bool
    ensures { IsSameView log.old.view log.new.view }
{
    let mut all = true;
    for number in from..to {
        all = publish_one(rt, alloc, log, number.saturating_add(1)) && all;
        thread::yield_now();
    }
    all
}

/// Reads until all commits are seen, and answers whether each answer was right: the number of
/// commits never falls, after c of them there is the byte c, and after none there is none.
pub fn watch(reader: &mut Reader) -> bool {
    let mut last = 0;
    for _ in 0..LOOKS {
        let Ok(answer) = reader.get(KEY) else {
            return false;
        };
        let byte = u8::try_from(answer.commits).ok().filter(|byte| *byte != 0);
        if answer.commits < last || answer.value != image(byte) {
            return false;
        }
        last = answer.commits;
        if last >= u64::from(COMMITS) {
            return true;
        }
        thread::yield_now();
    }
    false
}

/// How many commits a reader sees first after it learnt what was told, 0 where it is refused.
pub fn first_seen(mut reader: Reader, told: Told) -> u64
    requires { told.seen.book ≡ book_of reader }
{
    reader.learn(told);
    match reader.get(KEY) {
        Ok(answer) => answer.commits,
        Err(_) => 0,
    }
}

/// The readers watch, each in a thread of its own, while the commits are published. Another one
/// learns what is told after the first half of them. Whether all went well, and how many commits
/// the last one saw first. `None`: memory or a thread was refused.
fn publish_beside<R: Threads + Wait + Sync>(
    rt: &R,
    alloc: Global,
    log: &mut PublishedLog,
    mut readers: Vec<Reader>,
    told_one: Reader,
) -> Option<(bool, u64)>
    requires { book_of told_one ≡ log.old.view.book }
{
    let mut handles = Vec::with_capacity(alloc, READERS).ok()?;
    while let Some(mut reader) = readers.pop() {
        let handle = thread::spawn(rt, move || watch(&mut reader)).ok()?;
        handles.push(handle).ok()?;
    }
    let first = publish_some(rt, alloc, log, 0, COMMITS / 2);
    let told = log.tell();
    let (second, seen) = join(
        rt,
        || publish_some(rt, alloc, log, COMMITS / 2, COMMITS),
        move || -> u64
            requires { told.seen.book ≡ book_of told_one }
        { first_seen(told_one, told) },
    );
    let mut all = first && second;
    while let Some(handle) = handles.pop() {
        all = handle.join(rt) && all;
    }
    Some((all, seen))
}

#[test]
fn readers_never_go_back(rt: HostRuntime) -> Result<(), Fail> {
    let alloc = rt.alloc();
    let (mut log, mut readers) = PublishedLog::new(alloc, &rt, 2, READERS + 1)?;
    let done = match readers.pop() {
        Some(one) => publish_beside(&rt, alloc, &mut log, readers, one),
        None => None,
    };
    log.close(&rt);
    let (all, seen) = done.ok_or("threads")?;
    assert!(rt; all);
    assert!(rt; seen >= 50 && seen <= 100, "{seen}");
    Ok(())
}
