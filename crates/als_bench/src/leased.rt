use crate::devices::{Size, in_memory, standby};
use crate::redone::hold_frame;
use als_disk::{BlockDisk, MemDisk};
use als_engine::{Engine, Fault};
use als_lease::PageLease;
use als_sample_logs::{FIRST, PAGES, Primary};
use std::alloc::Global;
use std::io;
use std::rt::Clock;
use std::sync::Wait;
use std::time::{Duration, Instant};

/// The bytes of a frame.
const FRAME: usize = 65_536;

/// How many leases are out at once: as many as a dispatcher keeps out.
const ROUND: usize = 32;

/// How a standby is fed before its pages are lent.
#[derive(Clone, Copy)]
struct Depth {
    pages: u32,
    /// Frames that are fed before all that waits is redone.
    frames: u32,
    name: &'static str,
}

/// How many changes were redone by how many leases, and how long each part took.
#[derive(Clone, Copy)]
struct Parts {
    changes: u64,
    leases: u64,
    lent: Duration,
    redone: Duration,
    given: Duration,
}

impl Parts {
    const NOTHING: Parts = Parts {
        changes: 0,
        leases: 0,
        lent: Duration::ZERO,
        redone: Duration::ZERO,
        given: Duration::ZERO,
    };
}

/// Measures redo by leases in one thread: of 64 pages with 64 changes and more each, and of 4,096
/// pages with one or two.
pub fn lease_all<R: Print + Clock + AllocGlobal + Wait>(rt: &R, bytes: usize) -> io::Result<()> {
    for depth in [
        Depth {
            pages: 64,
            frames: 4,
            name: "deep",
        },
        Depth {
            pages: PAGES,
            frames: 1,
            name: "shallow",
        },
    ] {
        let written = Primary::new(rt.alloc(), 16, bytes, depth.pages);
        match written.and_then(|primary| primary.write(bytes)) {
            Ok(text) => lease_log(rt, text.as_slice(), depth)?,
            Err(fault) => println!(rt; "{fault}")?,
        }
    }
    Ok(())
}

fn lease_log<R: Print + Clock + AllocGlobal + Wait>(
    rt: &R,
    text: &[u8],
    depth: Depth,
) -> io::Result<()> {
    let size = Size {
        pages: depth.pages,
        frames: depth.pages,
        name: depth.name,
    };
    match standby(rt, rt.alloc(), in_memory(rt.alloc(), text, size), size) {
        Ok(engine) => lease_engine(rt, engine, text, depth),
        Err(fault) => println!(rt; "{fault}"),
    }
}

fn lease_engine<R: Print + Clock + AllocGlobal + Wait>(
    rt: &R,
    engine: Engine<MemDisk>,
    text: &[u8],
    depth: Depth,
) -> io::Result<()> {
    let mut engine = engine;
    let answer = lease_frames(rt, &mut engine, text, depth);
    drop(engine.into_disks(rt));
    match answer? {
        Ok(parts) => report(rt, depth, parts),
        Err(fault) => println!(rt; "{fault}"),
    }
}

/// Feeds and forces each frame, and redoes by leases what waits each so many frames.
fn lease_frames<R: Clock + AllocGlobal, D: BlockDisk + Drop>(
    rt: &R,
    engine: &mut Engine<D>,
    text: &[u8],
    depth: Depth,
) -> io::Result<Result<Parts, Fault>> {
    let mut parts = Parts::NOTHING;
    let mut frames = 0u32;
    for frame in text.get(FIRST..).unwrap_or(&[]).chunks(FRAME) {
        if let Err(fault) = hold_frame(engine, frame) {
            return Ok(Err(fault));
        }
        frames = frames.saturating_add(1);
        if frames % depth.frames.max(1) == 0
            && let Err(fault) = redo_all_waiting(rt, engine, &mut parts)?
        {
            return Ok(Err(fault));
        }
    }
    Ok(Ok(parts))
}

/// Redoes all that waits, in rounds of 32 leases.
fn redo_all_waiting<R: Clock + AllocGlobal, D: BlockDisk + Drop>(
    rt: &R,
    engine: &mut Engine<D>,
    parts: &mut Parts,
) -> io::Result<Result<(), Fault>> {
    for _ in 0..u64::MAX {
        match redo_round(rt, engine, parts)? {
            Ok(0) => break,
            Ok(_leases) => {}
            Err(fault) => return Ok(Err(fault)),
        }
    }
    Ok(Ok(()))
}

/// Lends up to 32 pages, redoes their batches, and gives them back. Answers how many they were.
fn redo_round<R: Clock + AllocGlobal, D: BlockDisk + Drop>(
    rt: &R,
    engine: &mut Engine<D>,
    parts: &mut Parts,
) -> io::Result<Result<usize, Fault>> {
    let start = Instant::now(rt)?;
    let mut leases = match lend_some(rt.alloc(), engine) {
        Ok(leases) => leases,
        Err(fault) => return Ok(Err(fault)),
    };
    parts.lent = parts.lent.saturating_add(start.elapsed(rt)?);
    let start = Instant::now(rt)?;
    let mut changes = 0u64;
    for lease in leases.iter_mut() {
        changes = changes.saturating_add(lease.batch().len() as u64);
        redo_batch(lease);
    }
    parts.redone = parts.redone.saturating_add(start.elapsed(rt)?);
    parts.changes = parts.changes.saturating_add(changes);
    let count = leases.len();
    parts.leases = parts.leases.saturating_add(count as u64);
    let start = Instant::now(rt)?;
    let given = give_all(engine, leases);
    parts.given = parts.given.saturating_add(start.elapsed(rt)?);
    match given {
        Ok(()) => Ok(Ok(count)),
        Err(fault) => Ok(Err(fault)),
    }
}

/// Lends the first 32 pages that wait.
fn lend_some<D: BlockDisk + Drop>(
    alloc: Global,
    engine: &mut Engine<D>,
) -> Result<Vec<PageLease>, Fault> {
    let mut leases = match Vec::with_capacity(alloc, ROUND) {
        Ok(leases) => leases,
        Err(_) => return Err(Fault::Memory),
    };
    let mut from = 0u32;
    for _ in 0..ROUND {
        let Some(page) = engine.next_pending(from) else {
            break;
        };
        let lease = engine.lend(page)?;
        if leases.push(lease).is_err() {
            return Err(Fault::Memory);
        }
        from = page.saturating_add(1);
    }
    Ok(leases)
}

/// Redoes a whole batch.
fn redo_batch(lease: &mut PageLease) {
    for _ in 0..lease.batch().len() {
        let _ = lease.redo_next();
    }
}

fn give_all<D: BlockDisk + Drop>(
    engine: &mut Engine<D>,
    leases: Vec<PageLease>,
) -> Result<(), Fault> {
    for lease in leases {
        match engine.give(lease) {
            Ok(()) => {}
            Err(refused) => return Err(refused.fault),
        }
    }
    Ok(())
}

/// Prints nanoseconds a change of each part.
fn report<R: Print>(rt: &R, depth: Depth, parts: Parts) -> io::Result<()> {
    println!(rt;
        "redo by leases, {}, {} pages: {} changes by {} leases, lend {} ns, redo {} ns, give {} ns a change",
        depth.name,
        depth.pages,
        parts.changes,
        parts.leases,
        each(parts.lent, parts.changes),
        each(parts.redone, parts.changes),
        each(parts.given, parts.changes)
    )
}

/// Nanoseconds a change.
fn each(took: Duration, changes: u64) -> u64 {
    u64::try_from(took.as_nanos()).unwrap_or(u64::MAX) / changes.max(1)
}
