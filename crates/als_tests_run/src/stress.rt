use crate::conducting::{Plan, run};
use crate::pages::{digest, serial};
use crate::seats::Done;
use crate::standbys::standby_with;
use als_engine::{Config, Events};
use als_sample_logs::{FIRST, PAGES, Primary};
use als_share::Counts;
use std::alloc::Global;
use std::sync::Wait;
use std::thread::Threads;

/// The largest database, all of whose pages can be in memory.
const CONFIG: Config = Config {
    pages: PAGES as u64,
    frames: PAGES as u64,
    pending: 1_000_000,
    readers: 1,
};

/// The bytes of the log.
const BYTES: usize = 1 << 17;

/// The blocks of the log device, with room for what a takeover would append.
const BLOCKS: u64 = 1 << 15;

/// The log of a primary with 16 open transactions. `None`: allocation failed.
fn text(alloc: Global) -> Option<Vec<u8>> {
    let primary = Primary::new(alloc, 16, BYTES, PAGES).ok()?;
    primary.write(BYTES).ok()
}

/// What is seen of a standby after a run.
#[derive(Clone, Copy)]
struct Seen {
    done: Done,
    /// Nothing waits, and no lease is out.
    is_redone: bool,
    /// The log is acknowledged to its end.
    is_acknowledged: bool,
    /// Each page is written and synced.
    is_clean: bool,
    digest: u64,
}

/// What is seen after a run.
fn look_at<E: Events>(events: &mut E, done: Done) -> Option<Seen> {
    let status = events.status();
    Some(Seen {
        done,
        is_redone: status.pending == 0 && status.leases == 0,
        is_acknowledged: status.acknowledged == status.end,
        is_clean: events.dirty(0).is_none(),
        digest: digest(events)?,
    })
}

/// All threads at once, with eight workers.
fn redo<E: Counts + Send + Drop, R: Threads + Wait + Sync>(
    rt: &R,
    alloc: Global,
    engine: E,
    text: &[u8],
) -> Option<Seen> {
    let plan = Plan {
        workers: 8,
        text,
        piece: 4096,
        has_upkeep: true,
    };
    let (engine, done) = run(rt, alloc, engine, plan)?;
    let mut engine = engine;
    look_at(&mut engine, done)
}

/// The pages after a serial run.
fn serial_pages<R: Wait>(rt: &R, alloc: Global, text: &[u8]) -> Option<u64> {
    let (mut engine, _) = standby_with(rt, alloc, BLOCKS, CONFIG)?;
    serial(&mut engine, text)
}

/// A run of all threads.
fn run_all<R: Threads + Wait + Sync>(rt: &R, alloc: Global, text: &[u8]) -> Option<Seen> {
    let (engine, _) = standby_with(rt, alloc, BLOCKS, CONFIG)?;
    redo(rt, alloc, engine, text)
}

/// Whether the pages are those of a serial run.
fn compare<R: Threads + Wait + Sync>(rt: &R, alloc: Global) -> Option<bool> {
    let text = text(alloc)?;
    let records = text.get(FIRST..)?;
    let pages = serial_pages(rt, alloc, records)?;
    let seen = run_all(rt, alloc, records)?;
    Some(
        seen.done.is_well
            && seen.is_redone
            && seen.is_acknowledged
            && seen.is_clean
            && seen.digest == pages,
    )
}

#[test]
fn all_threads_at_once(rt: HostRuntime) {
    let alloc = rt.alloc();
    assert!(rt; compare(&rt, alloc) == Some(true) || compare(&rt, alloc) == Some(true));
}
