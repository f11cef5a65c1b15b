use crate::devices::{Size, in_memory, standby, write_all};
use crate::redone::redo_some;
use als_disk::{BlockDisk, MemDisk};
use als_engine::{Engine, Fault};
use als_sample_logs::{FIRST, tell};
use std::io;
use std::rt::Clock;
use std::sync::Wait;
use std::time::{Duration, Instant};

/// How many bytes wait in memory before they are written and synced, and what waits for redo is
/// redone.
const WAITING: usize = 1 << 20;

/// What a job took: its records and its time.
#[derive(Clone, Copy)]
struct Took {
    records: u64,
    time: Duration,
}

/// Feeds a log in pieces of so many bytes. The log's writing and redo have their turns in between,
/// and their time is not counted.
pub fn feed_all<R: Print + Clock + AllocGlobal + Wait>(
    rt: &R,
    text: &[u8],
    piece: usize,
) -> io::Result<()> {
    match standby(
        rt,
        rt.alloc(),
        in_memory(rt.alloc(), text, Size::LARGEST),
        Size::LARGEST,
    ) {
        Ok(engine) => feed_one(rt, engine, text, piece),
        Err(fault) => println!(rt; "{fault}"),
    }
}

/// The same, with an engine that is there.
fn feed_one<R: Print + Clock + Wait>(
    rt: &R,
    engine: Engine<MemDisk>,
    text: &[u8],
    piece: usize,
) -> io::Result<()> {
    let mut engine = engine;
    let answer = feed_parts(rt, &mut engine, text, piece);
    drop(engine.into_disks(rt));
    match answer? {
        Ok(took) => tell(rt, "feed", Some(piece), text.len(), took.records, took.time),
        Err(fault) => println!(rt; "{fault}"),
    }
}

/// Feeds parts of the log, each of about so many bytes as may wait.
fn feed_parts<R: Clock>(
    rt: &R,
    engine: &mut Engine<MemDisk>,
    text: &[u8],
    piece: usize,
) -> io::Result<Result<Took, Fault>> {
    let mut took = Took {
        records: 0,
        time: Duration::ZERO,
    };
    for part in text.get(FIRST..).unwrap_or(&[]).chunks(WAITING) {
        let start = Instant::now(rt)?;
        let answer = feed_part(engine, part, piece);
        took.time = took.time.saturating_add(start.elapsed(rt)?);
        match answer {
            Ok(records) => took.records = took.records.saturating_add(records),
            Err(fault) => return Ok(Err(fault)),
        }
        if let Err(fault) = write_out(engine) {
            return Ok(Err(fault));
        }
    }
    Ok(Ok(took))
}

/// Feeds a part in pieces, and answers how many records became whole.
fn feed_part<D: BlockDisk + Drop>(
    engine: &mut Engine<D>,
    part: &[u8],
    piece: usize,
) -> Result<u64, Fault> {
    let mut records = 0u64;
    for bytes in part.chunks(piece.max(1)) {
        match engine.feed(bytes) {
            Ok(fed) => records = records.saturating_add(fed.records as u64),
            Err(refusal) => return Err(refusal.fault),
        }
    }
    Ok(records)
}

/// Writes and syncs the log, and redoes what is pending.
fn write_out<D: BlockDisk + Drop>(engine: &mut Engine<D>) -> Result<(), Fault> {
    write_all(engine);
    engine.log_sync()?;
    let _ = redo_some(engine);
    Ok(())
}
