use crate::devices::{Size, in_memory, standby, write_all};
use crate::redone::redo_some;
use als_disk::{BlockDisk, MemDisk};
use als_engine::{Engine, Fault};
use als_sample_logs::FIRST;
use std::io;
use std::rt::Clock;
use std::sync::Wait;
use std::time::{Duration, Instant};

/// The bytes of a frame.
const FRAME: usize = 65_536;

/// What a checkpoint holds, and how long each part of it took.
#[derive(Clone, Copy)]
struct Cost {
    transactions: usize,
    pages: u64,
    blocks: u64,
    begun: Duration,
    written: Duration,
    published: Duration,
}

/// Feeds a log, redoes and forces all of it, and then takes a checkpoint, over devices in memory.
pub fn checkpoint_all<R: Print + Clock + AllocGlobal + Wait>(
    rt: &R,
    text: &[u8],
) -> io::Result<()> {
    match standby(
        rt,
        rt.alloc(),
        in_memory(rt.alloc(), text, Size::LARGEST),
        Size::LARGEST,
    ) {
        Ok(engine) => checkpoint_engine(rt, engine, text),
        Err(fault) => println!(rt; "{fault}"),
    }
}

fn checkpoint_engine<R: Print + Clock + Wait>(
    rt: &R,
    engine: Engine<MemDisk>,
    text: &[u8],
) -> io::Result<()> {
    let mut engine = engine;
    let answer = match hold(&mut engine, text) {
        Ok(()) => take_checkpoint(rt, &mut engine),
        Err(fault) => Ok(Err(fault)),
    };
    drop(engine.into_disks(rt));
    report(rt, answer?)
}

/// Feeds a log in frames, redoes it and makes it stable.
fn hold<D: BlockDisk + Drop>(engine: &mut Engine<D>, text: &[u8]) -> Result<(), Fault> {
    for frame in text.get(FIRST..).unwrap_or(&[]).chunks(FRAME) {
        if let Err(refusal) = engine.feed(frame) {
            return Err(refusal.fault);
        }
        let _ = redo_some(engine);
    }
    write_all(engine);
    engine.log_sync()?;
    engine.mark_write()?;
    engine.ctl_sync()?;
    Ok(())
}

/// How many pages lack a record in their blocks.
fn dirty_pages<D: BlockDisk + Drop>(engine: &Engine<D>) -> u64 {
    let mut count: u64 = 0;
    let mut from = 0;
    for _ in 0..engine.pages() {
        let Some(row) = engine.dirty(from) else {
            break;
        };
        count = count.saturating_add(1);
        from = row.page.saturating_add(1);
    }
    count
}

/// Writes each block of the checkpoint that is begun, and answers how many these were.
pub fn write_blocks<D: BlockDisk + Drop>(engine: &mut Engine<D>) -> u64 {
    let mut count: u64 = 0;
    for _ in 0..u64::MAX {
        if engine.ckpt_block().is_err() {
            break;
        }
        count = count.saturating_add(1);
    }
    count
}

/// Takes a checkpoint: begins it, writes and syncs its blocks, publishes it and syncs that.
fn take_checkpoint<R: Clock, D: BlockDisk + Drop>(
    rt: &R,
    engine: &mut Engine<D>,
) -> io::Result<Result<Cost, Fault>> {
    let transactions = engine.table().len();
    let pages = dirty_pages(engine);
    let start = Instant::now(rt)?;
    if let Err(fault) = engine.ckpt_begin() {
        return Ok(Err(fault));
    }
    let begun = start.elapsed(rt)?;
    let start = Instant::now(rt)?;
    let blocks = write_blocks(engine);
    if let Err(fault) = engine.ctl_sync() {
        return Ok(Err(fault));
    }
    let written = start.elapsed(rt)?;
    let start = Instant::now(rt)?;
    if let Err(fault) = publish(engine) {
        return Ok(Err(fault));
    }
    let published = start.elapsed(rt)?;
    Ok(Ok(Cost {
        transactions,
        pages,
        blocks,
        begun,
        written,
        published,
    }))
}

/// Publishes the checkpoint, and syncs the control block that names it.
pub fn publish<D: BlockDisk + Drop>(engine: &mut Engine<D>) -> Result<(), Fault> {
    engine.ckpt_publish()?;
    engine.ctl_sync()?;
    Ok(())
}

/// Prints what a checkpoint holds, and its parts.
fn report<R: Print>(rt: &R, answer: Result<Cost, Fault>) -> io::Result<()> {
    let cost = match answer {
        Ok(cost) => cost,
        Err(fault) => return println!(rt; "{fault}"),
    };
    println!(rt;
        "checkpoint of {} dirty pages and {} transactions: {} blocks; begun in {} us, written and synced in {} us, published in {} us",
        cost.pages,
        cost.transactions,
        cost.blocks,
        cost.begun.as_micros(),
        cost.written.as_micros(),
        cost.published.as_micros()
    )
}
