ghost use Rattle.std.specs.Prelude.{◌≡◌};
ghost use Rattle.als_published_log.specs.Keeping.{IsSameView};

use crate::written::{Change, image, transaction};
use als_published_log::PublishedLog;
use als_record::{Image, Key};
use als_view::Reader;
use std::alloc::Global;
use std::sync::Wait;
use std::test::*;
use std::thread;
use std::thread::{Threads, join};

/// The keys that each commit writes.
const KEYS: [Key; 3] = [
    Key { page: 0, slot: 0 },
    Key { page: 0, slot: 14 },
    Key { page: 1, slot: 7 },
];

/// How many commits are published.
const COMMITS: u8 = 100;

/// How often a reader looks at most.
const LOOKS: u64 = 10_000_000;

/// The commit with a number writes that one byte to each key, and is published at once.
fn publish_one<R: Wait>(rt: &R, alloc: Global, log: &mut PublishedLog, number: u8) -> bool
    ensures { IsSameView log.old.view log.new.view }
{
    let last = number.wrapping_sub(1);
    let before = if last == 0 { None } else { Some(last) };
    let after = Some(number);
    let [first, second, third] = KEYS;
    let changes = [
        Change {
            key: first,
            before,
            after,
        },
        Change {
            key: second,
            before,
            after,
        },
        Change {
            key: third,
            before,
            after,
        },
    ];
    let Some(text) = transaction(alloc, log.end(), number, &changes) else {
        return false;
    };
    log.feed(text.as_slice()).is_ok() && log.publish(rt).is_ok()
}

/// Publishes all commits, each by itself.
fn publish_all<R: Wait>(rt: &R, alloc: Global, log: &mut PublishedLog) -> bool {
    let mut all = true;
    for number in 0..COMMITS {
        all = publish_one(rt, alloc, log, number.saturating_add(1)) && all;
        thread::yield_now();
    }
    all
}

/// What each key has after so many commits.
fn after(commits: u64) -> Image {
    image(u8::try_from(commits).ok().filter(|byte| *byte != 0))
}

/// Reads all keys until all commits are seen, and answers whether each answer was right: after c
/// commits each key has the byte c.
fn watch(alloc: Global, reader: &mut Reader) -> bool {
    for _ in 0..LOOKS {
        let Ok(room) = Vec::with_capacity(alloc, 3) else {
            return false;
        };
        let Ok(answer) = reader.get_many(&KEYS, room) else {
            return false;
        };
        let wanted = after(answer.commits);
        if answer.images.len() != 3 || answer.images.iter().any(|found| found.image() != wanted) {
            return false;
        }
        if answer.commits >= u64::from(COMMITS) {
            return true;
        }
        thread::yield_now();
    }
    false
}

#[test]
fn many_keys_are_of_one_front(rt: HostRuntime) -> Result<(), Fail> {
    let alloc = rt.alloc();
    let (mut log, mut readers) = PublishedLog::new(alloc, &rt, 2, 1)?;
    let mut reader = readers.pop().ok_or("a reader")?;
    let (written, seen) = join(
        &rt,
        || publish_all(&rt, alloc, &mut log),
        || watch(alloc, &mut reader),
    );
    log.close(&rt);
    assert!(rt; written);
    assert!(rt; seen);
    Ok(())
}

/// Enters a copy, and follows a key to the next one: the value of the first key is the slot of the
/// second. How many commits both are of, and whether the database has a key.
fn followed(reader: Reader) -> Option<(Image, u64, bool)> {
    let inside = match reader.enter() {
        Ok(inside) => inside,
        Err((reader, _fault)) => {
            drop(reader);
            return None;
        }
    };
    let head = inside.image(Key { page: 0, slot: 0 });
    let slot = if head.image() == image(Some(7)) { 7 } else { 0 };
    let found = inside.image(Key { page: 1, slot }).image();
    let commits = inside.commits();
    let has = inside.pages() == 2 && inside.lsn().0 > 0;
    let reader = inside.leave();
    let has = has && reader.has(Key { page: 1, slot: 14 }) && !reader.has(Key { page: 2, slot: 0 });
    let has = has && reader.pages() == 2;
    drop(reader);
    Some((found, commits, has))
}

#[test]
fn a_key_leads_to_the_next_one(rt: HostRuntime) -> Result<(), Fail> {
    let alloc = rt.alloc();
    let (mut log, mut readers) = PublishedLog::new(alloc, &rt, 2, 1)?;
    let reader = readers.pop().ok_or("a reader")?;
    let mut written = true;
    for number in 0..7u8 {
        written = publish_one(&rt, alloc, &mut log, number.saturating_add(1)) && written;
    }
    let found = followed(reader);
    log.close(&rt);
    assert!(rt; written);
    assert!(rt; found == Some((image(Some(7)), 7, true)));
    Ok(())
}
