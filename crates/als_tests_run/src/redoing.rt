ghost use Rattle.std.specs.Prelude.{◌≤◌};

use crate::conducting::{Plan, run};
use crate::pages::{digest, is_page, serial};
use crate::seats::Done;
use crate::spelled::Spelled;
use crate::standbys::standby_with;
use als_engine::{Config, Events};
use als_record::FIRST_LSN;
use als_share::Counts;
use std::alloc::Global;
use std::sync::Wait;
use std::thread::Threads;

/// A standby of 41 pages.
const CONFIG: Config = Config {
    pages: 41,
    frames: 41,
    pending: 1000,
    readers: 1,
};

/// The blocks of its log.
const BLOCKS: u64 = 64;

/// The end of the log.
const END: u64 = 8883;

/// The last change of page 0.
const LAST: u64 = 7378;

/// A transaction writes 0/0 200 times, the n-th value being the one byte n, then slot 0 of each other
/// page once with the byte 1, and commits. `None`: allocation failed.
fn text(alloc: Global) -> Option<Vec<u8>> {
    let mut spelled = Spelled::new(alloc, FIRST_LSN);
    spelled.begin(1);
    spelled.update(0, 0, None, Some(1));
    for byte in 1..200 {
        spelled.update(0, 0, Some(byte), Some(byte + 1));
    }
    for page in 1..41 {
        spelled.update(page, 0, None, Some(1));
    }
    spelled.commit();
    spelled.text()
}

/// What is seen of a standby after a run.
#[derive(Clone, Copy)]
struct Seen {
    done: Done,
    /// Nothing waits, no lease is out, and all of the log is held.
    is_redone: bool,
    /// Each page has the page_LSN and the value that the log gives it.
    are_pages: bool,
    digest: u64,
}

/// What is seen after a run.
fn look_at<E: Events>(events: &mut E, done: Done) -> Option<Seen> {
    let status = events.status();
    Some(Seen {
        done,
        is_redone: status.pending == 0 && status.leases == 0 && status.end.0 == END,
        are_pages: are_pages(events),
        digest: digest(events)?,
    })
}

/// Whether each page has what the log gives it.
fn are_pages<E: Events>(events: &mut E) -> bool {
    let mut all = is_page(events, 0, LAST, 200);
    for page in 1..41 {
        // Each record of these pages has 36 bytes. Behind the last one of page 0 they begin.
        let lsn = LAST + 37 + 36 * u64::from(page - 1);
        all = is_page(events, page, lsn, 1) && all;
    }
    all
}

/// A run of an engine to which nothing more is fed.
fn redo<E: Counts + Send + Drop, R: Threads + Wait + Sync>(
    rt: &R,
    alloc: Global,
    engine: E,
    plan: Plan<'_>,
) -> Option<Seen>
    requires { plan.workers ≤ 8 }
{
    let (engine, done) = run(rt, alloc, engine, plan)?;
    let mut engine = engine;
    look_at(&mut engine, done)
}

/// All is fed, and then redone by so many workers.
fn feed_and_redo<R: Threads + Wait + Sync>(
    rt: &R,
    alloc: Global,
    text: &[u8],
    workers: usize,
) -> Option<Seen>
    requires { workers ≤ 8 }
{
    let (mut engine, _) = standby_with(rt, alloc, BLOCKS, CONFIG)?;
    engine.feed(text).ok()?;
    let plan = Plan {
        workers,
        text: &[],
        piece: 1,
        has_upkeep: false,
    };
    redo(rt, alloc, engine, plan)
}

/// The text is fed in pieces of 61 bytes, and redone by so many workers meanwhile.
fn redo_beside<R: Threads + Wait + Sync>(
    rt: &R,
    alloc: Global,
    text: &[u8],
    workers: usize,
) -> Option<Seen>
    requires { workers ≤ 8 }
{
    let (engine, _) = standby_with(rt, alloc, BLOCKS, CONFIG)?;
    let plan = Plan {
        workers,
        text,
        piece: 61,
        has_upkeep: false,
    };
    redo(rt, alloc, engine, plan)
}

/// The pages after a serial run.
fn serial_pages<R: Wait>(rt: &R, alloc: Global, text: &[u8]) -> Option<u64> {
    let (mut engine, _) = standby_with(rt, alloc, BLOCKS, CONFIG)?;
    serial(&mut engine, text)
}

/// Whether all leases were given, and the pages are those of a serial run.
fn is_equal(seen: Seen, pages: u64) -> bool {
    seen.done.is_well && seen.is_redone && seen.are_pages && seen.digest == pages
}

/// Three workers. Page 0 has four leases, of which three have 64 changes, and each other page one.
fn three<R: Threads + Wait + Sync>(rt: &R, alloc: Global) -> Option<bool> {
    let text = text(alloc)?;
    let pages = serial_pages(rt, alloc, text.as_slice())?;
    let seen = feed_and_redo(rt, alloc, text.as_slice(), 3)?;
    Some(is_equal(seen, pages) && seen.done.leases == 44 && seen.done.deep == 3)
}

/// 1, 2, 4 and 8 workers.
fn one_to_eight<R: Threads + Wait + Sync>(rt: &R, alloc: Global) -> Option<bool> {
    let text = text(alloc)?;
    let pages = serial_pages(rt, alloc, text.as_slice())?;
    let mut all = true;
    for workers in [1, 2, 4, 8] {
        let seen = redo_beside(rt, alloc, text.as_slice(), workers)?;
        all = is_equal(seen, pages) && all;
    }
    Some(all)
}

#[test]
fn three_workers_redo_what_is_held(rt: HostRuntime) {
    let alloc = rt.alloc();
    assert!(rt; three(&rt, alloc) == Some(true) || three(&rt, alloc) == Some(true));
}

#[test]
fn workers_redo_what_is_fed(rt: HostRuntime) {
    let alloc = rt.alloc();
    assert!(rt; one_to_eight(&rt, alloc) == Some(true) || one_to_eight(&rt, alloc) == Some(true));
}
