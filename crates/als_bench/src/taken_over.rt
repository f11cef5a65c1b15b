use crate::devices::{Size, in_memory, standby};
use crate::redone::hold;
use als_disk::{BlockDisk, MemDisk};
use als_engine::{Engine, Fault};
use als_sample_logs::{FIRST, write_losers};
use std::io;
use std::rt::Clock;
use std::sync::Wait;
use std::time::{Duration, Instant};

/// What an undo took: its records and its time.
#[derive(Clone, Copy)]
struct Took {
    records: u64,
    time: Duration,
}

/// Takes over logs of so many losers, which have so many surviving updates together.
pub fn take_over_all<R: Print + Clock + AllocGlobal + Wait>(rt: &R) -> io::Result<()> {
    for (losers, updates) in [(1, 10_000), (16, 10_000), (256, 10_000), (1, 100_000)] {
        match write_losers(rt.alloc(), losers, updates) {
            Ok(text) => take_over(rt, text.as_slice(), losers, updates)?,
            Err(fault) => println!(rt; "{fault}")?,
        }
    }
    Ok(())
}

fn take_over<R: Print + Clock + AllocGlobal + Wait>(
    rt: &R,
    text: &[u8],
    losers: u32,
    updates: u32,
) -> io::Result<()> {
    match standby(
        rt,
        rt.alloc(),
        in_memory(rt.alloc(), text, Size::LARGEST),
        Size::LARGEST,
    ) {
        Ok(engine) => take_over_engine(rt, engine, text, losers, updates),
        Err(fault) => println!(rt; "{fault}"),
    }
}

fn take_over_engine<R: Print + Clock + Wait>(
    rt: &R,
    engine: Engine<MemDisk>,
    text: &[u8],
    losers: u32,
    updates: u32,
) -> io::Result<()> {
    let mut engine = engine;
    let answer = match seal(&mut engine, text) {
        Ok(()) => undo_all(rt, &mut engine),
        Err(fault) => Ok(Err(fault)),
    };
    drop(engine.into_disks(rt));
    report(rt, losers, updates, answer?)
}

/// Feeds a log, redoes and forces all of it, and seals it.
fn seal<D: BlockDisk + Drop>(engine: &mut Engine<D>, text: &[u8]) -> Result<(), Fault> {
    hold(engine, text.get(FIRST..).unwrap_or(&[]))?;
    engine.seal()?;
    engine.ctl_sync()?;
    Ok(())
}

/// Holds the whole tail.
fn undo_all<R: Clock, D: BlockDisk + Drop>(
    rt: &R,
    engine: &mut Engine<D>,
) -> io::Result<Result<Took, Fault>> {
    let start = Instant::now(rt)?;
    let mut records: u64 = 0;
    for _ in 0..u64::MAX {
        match engine.undo_one() {
            Ok(_) => records = records.saturating_add(1),
            Err(Fault::NothingToDo) => break,
            Err(fault) => return Ok(Err(fault)),
        }
    }
    let time = start.elapsed(rt)?;
    Ok(Ok(Took { records, time }))
}

/// Prints records a second.
fn report<R: Print>(
    rt: &R,
    losers: u32,
    updates: u32,
    answer: Result<Took, Fault>,
) -> io::Result<()> {
    let took = match answer {
        Ok(took) => took,
        Err(fault) => return println!(rt; "{fault}"),
    };
    let nanos = u64::try_from(took.time.as_nanos())
        .unwrap_or(u64::MAX)
        .max(1);
    let micros = (nanos / 1000).max(1);
    println!(rt;
        "undo of {losers} losers with {updates} survivors: {} records, {} records/s, {} ns each",
        took.records,
        took.records.saturating_mul(1_000_000) / micros,
        nanos / took.records.max(1)
    )
}
