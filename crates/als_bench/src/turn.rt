use crate::checkpointed::{publish, write_blocks};
use crate::devices::write_all;
use crate::redone::{flush_rows, redo_some};
use crate::split::{Split, add};
use als_disk::BlockDisk;
use als_engine::{Engine, Fault};
use als_record::Lsn;
use std::io;
use std::rt::Clock;
use std::sync::Wait;
use std::time::Instant;

/// The pages are written, and a checkpoint is taken, after so many frames.
const TURN: u32 = 64;

/// Answers what passed over, where there was nothing to do.
fn passed_over(answer: Result<(), Fault>) -> Result<(), Fault> {
    match answer {
        Err(Fault::NothingToDo) => Ok(()),
        answer => answer,
    }
}

/// Feeds the bytes of a frame.
pub fn feed<R: Clock, D: BlockDisk + Drop>(
    rt: &R,
    engine: &mut Engine<D>,
    split: &mut Split,
    bytes: &[u8],
) -> io::Result<Result<(), Fault>> {
    let start = Instant::now(rt)?;
    let answer = engine.feed(bytes);
    add(rt, &mut split.fed, start)?;
    match answer {
        Ok(fed) => {
            split.records = split.records.saturating_add(fed.records as u64);
            split.frames = split.frames.saturating_add(1);
            Ok(Ok(()))
        }
        Err(refusal) => Ok(Err(refusal.fault)),
    }
}

/// Forces the log, and answers what is acknowledged.
pub fn force<R: Clock, D: BlockDisk + Drop>(
    rt: &R,
    engine: &mut Engine<D>,
    split: &mut Split,
) -> io::Result<Result<Lsn, Fault>> {
    let start = Instant::now(rt)?;
    write_all(engine);
    add(rt, &mut split.written, start)?;
    let start = Instant::now(rt)?;
    let synced = engine.log_sync();
    add(rt, &mut split.synced, start)?;
    if let Err(fault) = synced {
        return Ok(Err(fault));
    }
    let start = Instant::now(rt)?;
    let marked = passed_over(engine.mark_write());
    add(rt, &mut split.marked, start)?;
    if let Err(fault) = marked {
        return Ok(Err(fault));
    }
    let start = Instant::now(rt)?;
    let acknowledged = engine.ctl_sync();
    add(rt, &mut split.acknowledged, start)?;
    Ok(acknowledged)
}

/// What follows the acknowledging of a frame: its commits are published, and it is redone. Now and
/// then the pages are stored and a checkpoint is taken.
pub fn settle<R: Clock + Wait, D: BlockDisk + Drop>(
    rt: &R,
    engine: &mut Engine<D>,
    split: &mut Split,
) -> io::Result<Result<(), Fault>> {
    let start = Instant::now(rt)?;
    let published = passed_over(engine.publish_view(rt));
    add(rt, &mut split.published, start)?;
    if let Err(fault) = published {
        return Ok(Err(fault));
    }
    let start = Instant::now(rt)?;
    let redone = redo_some(engine);
    add(rt, &mut split.redone, start)?;
    if let Err(fault) = redone {
        return Ok(Err(fault));
    }
    if split.frames % TURN == 0 {
        return store(rt, engine, split);
    }
    Ok(Ok(()))
}

/// Writes and syncs the pages, and takes a checkpoint.
pub fn store<R: Clock, D: BlockDisk + Drop>(
    rt: &R,
    engine: &mut Engine<D>,
    split: &mut Split,
) -> io::Result<Result<(), Fault>> {
    let start = Instant::now(rt)?;
    let flushed = flush(engine);
    add(rt, &mut split.flushed, start)?;
    if let Err(fault) = flushed {
        return Ok(Err(fault));
    }
    let start = Instant::now(rt)?;
    let taken = checkpoint(engine);
    add(rt, &mut split.checkpointed, start)?;
    Ok(taken)
}

fn flush<D: BlockDisk + Drop>(engine: &mut Engine<D>) -> Result<(), Fault> {
    flush_rows(engine)?;
    engine.sync_pages()?;
    Ok(())
}

fn checkpoint<D: BlockDisk + Drop>(engine: &mut Engine<D>) -> Result<(), Fault> {
    engine.ckpt_begin()?;
    let _blocks = write_blocks(engine);
    engine.ctl_sync()?;
    publish(engine)
}
