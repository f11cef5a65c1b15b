ghost use Rattle.std.specs.Prelude.{◌≡◌, Some, true};
ghost use Rattle.als_view.specs.Views.{book_of};
ghost use Rattle.als_share.specs.Ledgers.{AreNamed};

use crate::spelled::Spelled;
use crate::standbys::{CONFIG, force, standby_with};
use als_engine::{Config, Events, Reader};
use als_record::{Image, Key};
use als_share::{Blanks, Counts, Handle, Ledgers, Share, Shared, share};
use std::alloc::Global;
use std::marker::Brand;
use std::sync::Wait;
use std::thread;
use std::thread::Threads;

/// The key that each commit writes.
const KEY: Key = Key { page: 0, slot: 0 };

/// How many commits are published.
const COMMITS: u8 = 100;

/// How many of them are published before the session is told.
const HALF: u8 = COMMITS / 2;

/// How many readers a standby has. One is in the session, the others watch.
const READERS: usize = 8;

/// A standby with that many readers.
const MANY: Config = Config {
    readers: READERS as u64,
    ..CONFIG
};

/// How often a reader looks at most.
const LOOKS: u64 = 10_000_000;

/// The commit with a number writes that one byte. It is fed, acknowledged and published.
fn publish_one<E: Events, R: Wait>(rt: &R, alloc: Global, events: &mut E, number: u8) -> Option<()>
    ensures { E.book events.new ≡ E.book events.old }
{
    let before = number.checked_sub(1).filter(|byte| *byte != 0);
    let mut spelled = Spelled::new(alloc, events.status().end);
    spelled.begin(u32::from(number));
    spelled.update(KEY.page, KEY.slot, before, Some(number));
    spelled.commit();
    spelled.end();
    events.feed(spelled.text()?.as_slice()).ok()?;
    force(events)?;
    events.publish_view(rt).ok()
}

/// Publishes the commits after one number up to another, each by itself. Whether all were.
fn publish<E: Events, R: Wait>(rt: &R, alloc: Global, events: &mut E, from: u8, to: u8) -> bool
    ensures { E.book events.new ≡ E.book events.old }
{
    let mut all = true;
    for number in from..to {
        all = publish_one(rt, alloc, events, number.saturating_add(1)).is_some() && all;
        thread::yield_now();
    }
    all
}

/// Whether a value is that after so many commits.
fn is_value(image: &Image, commits: u64) -> bool {
    match image {
        Some(value) => value.len() == 1
            && value.first().map_or(0, |byte| u64::from(*byte)) == commits,
        None => commits == 0,
    }
}

/// How many commits a reader sees, if they are not fewer than before and the value is that after
/// them.
fn look(reader: &mut Reader, before: u64) -> Option<u64>
    ensures { book_of reader.new ≡ book_of reader.old }
{
    let answer = reader.get(KEY).ok()?;
    if answer.commits < before || !is_value(&answer.value, answer.commits) {
        return None;
    }
    Some(answer.commits)
}

/// Reads until all commits are seen. Whether each answer was right.
fn watch(reader: &mut Reader) -> bool {
    let mut seen = 0;
    for _ in 0..LOOKS {
        match look(reader, seen) {
            Some(commits) => seen = commits,
            None => return false,
        }
        if seen >= u64::from(COMMITS) {
            return true;
        }
        thread::yield_now();
    }
    false
}

/// A session: it is told by the engine, and its reader learns that, until all commits are seen. How
/// many its first answer had, if each answer was right.
fn converse<E: Events>(events: &E, reader: &mut Reader) -> Option<u64>
    requires { book_of reader.old ≡ E.book events.now }
{
    reader.learn(events.tell());
    let first = look(reader, 0)?;
    let mut seen = first;
    for _ in 0..LOOKS {
        if seen >= u64::from(COMMITS) {
            return Some(first);
        }
        reader.learn(events.tell());
        seen = look(reader, seen)?;
        thread::yield_now();
    }
    None
}

/// One thread publishes the second half of the commits, another one is a session. Whether all were
/// published, and how many commits the session saw first.
fn publish_and_tell<L: Ledgers + Send + Sync, E: Events + Send, R: Threads + Wait + Sync>(
    rt: &R,
    alloc: Global,
    shared: &Shared<L, E>,
    publisher: Share<L>,
    session: Share<L>,
    reader: Reader,
) -> (bool, Option<u64>)
    requires { book_of reader ≡ L.book }
{
    let mut publisher = Handle::new(rt, shared, publisher);
    let session = Handle::new(rt, shared, session);
    let first = publish(rt, alloc, &mut publisher, 0, HALF);
    let (second, seen) = thread::join(
        rt,
        move || {
            let mut publisher = publisher;
            publish(rt, alloc, &mut publisher, HALF, COMMITS)
        },
        move || -> Option<u64>
            requires { book_of reader ≡ L.book }
        {
            let mut reader = reader;
            converse(&session, &mut reader)
        },
    );
    (first && second, seen)
}

/// All of it, over an engine that is shared. Each other reader watches in a thread of its own. Whether
/// all went well, and how many commits the session saw first.
fn serve<L: Ledgers + Send + Sync, E: Counts + Send + Drop, R: Threads + Wait + Sync>(
    rt: &R,
    alloc: Global,
    engine: E,
    mut readers: Vec<Reader>,
    told: Reader,
    blanks: Blanks,
) -> Option<(bool, Option<u64>)>
    requires start { L.start ≡ Some (E.machine engine) }
    requires book { L.book ≡ E.book engine }
    requires names { AreNamed L.names blanks.names }
    requires parts { (blanks.parts ≡ L.shares) × (L.shares ≡ 2) }
    requires takes_over { L.takes_over ≡ true }
    requires reader { book_of told ≡ L.book }
{
    let (shared, mut shares, _) = share::<L, E>(alloc, engine, 2, blanks, true).ok()?;
    let (publisher, session) = (shares.pop()?, shares.pop()?);
    let mut watching = Vec::with_capacity(alloc, READERS).ok()?;
    while let Some(mut reader) = readers.pop() {
        let thread = thread::spawn(rt, move || watch(&mut reader)).ok()?;
        watching.push(thread).ok()?;
    }
    let (done, seen) = publish_and_tell(rt, alloc, &shared, publisher, session, told);
    let mut all = done;
    while let Some(thread) = watching.pop() {
        all = thread.join(rt) && all;
    }
    Some((all, seen))
}

/// The same, over ledgers that are picked here.
fn served<E: Counts + Send + Drop, R: Threads + Wait + Sync>(
    rt: &R,
    alloc: Global,
    engine: E,
    readers: Vec<Reader>,
    told: Reader,
) -> Option<(bool, Option<u64>)>
    requires { book_of told ≡ E.book engine }
{
    serve::<Brand, E, R>(rt, alloc, engine, readers, told, Blanks::new(2))
}

/// A new standby, shared. `None`: memory or a thread was refused.
fn run<R: Threads + Wait + Sync>(rt: &R, alloc: Global) -> Option<(bool, Option<u64>)> {
    let (engine, mut readers) = standby_with(rt, alloc, 64, MANY)?;
    let told = readers.pop()?;
    served(rt, alloc, engine, readers, told)
}

#[test]
fn readers_of_a_shared_engine_never_go_back(rt: HostRuntime) {
    let alloc = rt.alloc();
    let done = match run(&rt, alloc) {
        Some(done) => Some(done),
        None => run(&rt, alloc),
    };
    match done {
        Some((all, Some(seen))) => {
            assert!(rt; all);
            assert!(rt; seen >= u64::from(HALF) && seen <= u64::from(COMMITS));
        }
        _ => panic!(rt; "a reader went back, or memory or a thread was refused"),
    }
}
