use crate::devices::{Size, in_folder, in_memory, standby, write_all};
use als_disk::{BlockDisk, FileDisk, MemDisk};
use als_engine::{Engine, Fault};
use als_sample_logs::FIRST;
use std::fs::File;
use std::io;
use std::rt::{Clock, Files};
use std::sync::Wait;
use std::time::{Duration, Instant};

/// The bytes of a frame.
const FRAME: usize = 65_536;

/// The pages are written and synced after so many frames.
const TURN: u32 = 64;

/// How many changes were fed and redone, and how long each part of the work took.
#[derive(Clone, Copy)]
struct Split {
    changes: u64,
    fed: Duration,
    redone: Duration,
    flushed: Duration,
    synced: Duration,
}

impl Split {
    const NOTHING: Split = Split {
        changes: 0,
        fed: Duration::ZERO,
        redone: Duration::ZERO,
        flushed: Duration::ZERO,
        synced: Duration::ZERO,
    };
}

/// Feeds a log in frames, redoes what waits after each, and writes and syncs the pages every so
/// many frames: over devices in memory, and over files where a folder is given.
pub fn redo_all<R: Print + Clock + AllocGlobal + Files<File = File> + Wait>(
    rt: &R,
    text: &[u8],
    size: Size,
    folder: Option<&str>,
) -> io::Result<()> {
    redo_in_memory(rt, text, size)?;
    match folder {
        Some(folder) => redo_on_files(rt, text, size, folder),
        None => Ok(()),
    }
}

fn redo_in_memory<R: Print + Clock + AllocGlobal + Wait>(
    rt: &R,
    text: &[u8],
    size: Size,
) -> io::Result<()> {
    match standby(rt, rt.alloc(), in_memory(rt.alloc(), text, size), size) {
        Ok(engine) => redo_memory_engine(rt, engine, text, size),
        Err(fault) => println!(rt; "{fault}"),
    }
}

fn redo_memory_engine<R: Print + Clock + Wait>(
    rt: &R,
    engine: Engine<MemDisk>,
    text: &[u8],
    size: Size,
) -> io::Result<()> {
    let mut engine = engine;
    let answer = redo_frames(rt, &mut engine, text);
    drop(engine.into_disks(rt));
    report(rt, "in memory", size, answer?)
}

fn redo_on_files<R: Print + Clock + AllocGlobal + Files<File = File> + Wait>(
    rt: &R,
    text: &[u8],
    size: Size,
    folder: &str,
) -> io::Result<()> {
    let disks = in_folder(rt, folder, text, size)?;
    match standby(rt, rt.alloc(), disks, size) {
        Ok(engine) => redo_file_engine(rt, engine, text, size),
        Err(fault) => println!(rt; "{fault}"),
    }
}

fn redo_file_engine<R: Print + Clock + Wait>(
    rt: &R,
    engine: Engine<FileDisk>,
    text: &[u8],
    size: Size,
) -> io::Result<()> {
    let mut engine = engine;
    let answer = redo_frames(rt, &mut engine, text);
    drop(engine.into_disks(rt));
    report(rt, "on files", size, answer?)
}

/// Feeds each frame, forces it and redoes it. The log's writes and syncs are not counted.
fn redo_frames<R: Clock, D: BlockDisk + Drop>(
    rt: &R,
    engine: &mut Engine<D>,
    text: &[u8],
) -> io::Result<Result<Split, Fault>> {
    let mut split = Split::NOTHING;
    let mut frames = 0u32;
    for frame in text.get(FIRST..).unwrap_or(&[]).chunks(FRAME) {
        let start = Instant::now(rt)?;
        if let Err(refusal) = engine.feed(frame) {
            return Ok(Err(refusal.fault));
        }
        split.fed = split.fed.saturating_add(start.elapsed(rt)?);
        split.changes = split.changes.saturating_add(engine.status().pending as u64);
        frames = frames.saturating_add(1);
        if let Err(fault) = redo_frame(rt, engine, &mut split, frames % TURN == 0)? {
            return Ok(Err(fault));
        }
    }
    Ok(Ok(split))
}

/// Forces a frame and redoes it; and writes and syncs the pages where it is their turn.
fn redo_frame<R: Clock, D: BlockDisk + Drop>(
    rt: &R,
    engine: &mut Engine<D>,
    split: &mut Split,
    turn: bool,
) -> io::Result<Result<(), Fault>> {
    if let Err(fault) = force(engine) {
        return Ok(Err(fault));
    }
    if let Err(fault) = redo_waiting(rt, engine, split)? {
        return Ok(Err(fault));
    }
    if turn {
        return store_pages(rt, engine, split);
    }
    Ok(Ok(()))
}

/// Makes the log certain and acknowledges it.
fn force<D: BlockDisk + Drop>(engine: &mut Engine<D>) -> Result<(), Fault> {
    write_all(engine);
    engine.log_sync()?;
    match engine.mark_write() {
        Ok(()) | Err(Fault::NothingToDo) => {}
        Err(fault) => return Err(fault),
    }
    let _acknowledged = engine.ctl_sync()?;
    Ok(())
}

/// Feeds bytes of a log in frames, forces and redoes them.
pub fn hold<D: BlockDisk + Drop>(engine: &mut Engine<D>, text: &[u8]) -> Result<(), Fault> {
    for frame in text.chunks(FRAME) {
        hold_frame(engine, frame)?;
        redo_some(engine)?;
    }
    Ok(())
}

/// Feeds a frame and forces it.
pub fn hold_frame<D: BlockDisk + Drop>(engine: &mut Engine<D>, frame: &[u8]) -> Result<(), Fault> {
    if let Err(refusal) = engine.feed(frame) {
        return Err(refusal.fault);
    }
    force(engine)
}

/// Redoes all that waits. Where no frame is free, the pages are written and synced first.
fn redo_waiting<R: Clock, D: BlockDisk + Drop>(
    rt: &R,
    engine: &mut Engine<D>,
    split: &mut Split,
) -> io::Result<Result<(), Fault>> {
    for _ in 0..u64::MAX {
        let start = Instant::now(rt)?;
        let answer = redo_some(engine);
        split.redone = split.redone.saturating_add(start.elapsed(rt)?);
        match answer {
            Ok(()) => break,
            Err(Fault::PoolFull) => {}
            Err(fault) => return Ok(Err(fault)),
        }
        if let Err(fault) = store_pages(rt, engine, split)? {
            return Ok(Err(fault));
        }
    }
    Ok(Ok(()))
}

/// Redoes what waits, page by page, as als_drive does: the search for the next page goes on behind
/// the one that was redone.
pub fn redo_some<D: BlockDisk + Drop>(engine: &mut Engine<D>) -> Result<(), Fault> {
    let mut from = 0;
    for _ in 0..u64::MAX {
        match engine.next_pending(from) {
            Some(page) => {
                redo_page(engine, page)?;
                from = page.saturating_add(1);
            }
            None if from == 0 => break,
            None => from = 0,
        }
    }
    Ok(())
}

/// Redoes the first changes that wait for a page, if it lacks one of them: lends the page, redoes
/// its batch and gives it back.
pub fn redo_page<D: BlockDisk + Drop>(engine: &mut Engine<D>, page: u32) -> Result<(), Fault> {
    let mut lease = match engine.lend(page) {
        Ok(lease) => lease,
        Err(Fault::NothingToDo) => return Ok(()),
        Err(fault) => return Err(fault),
    };
    for _ in 0..lease.batch().len() {
        let _ = lease.redo_next();
    }
    match engine.give(lease) {
        Ok(()) => Ok(()),
        Err(refused) => Err(refused.fault),
    }
}

/// Writes the pages that have a row, and syncs them.
fn store_pages<R: Clock, D: BlockDisk + Drop>(
    rt: &R,
    engine: &mut Engine<D>,
    split: &mut Split,
) -> io::Result<Result<(), Fault>> {
    let start = Instant::now(rt)?;
    let answer = flush_rows(engine);
    split.flushed = split.flushed.saturating_add(start.elapsed(rt)?);
    if let Err(fault) = answer {
        return Ok(Err(fault));
    }
    let start = Instant::now(rt)?;
    let answer = engine.sync_pages();
    split.synced = split.synced.saturating_add(start.elapsed(rt)?);
    Ok(answer)
}

pub fn flush_rows<D: BlockDisk + Drop>(engine: &mut Engine<D>) -> Result<(), Fault> {
    let mut from = 0u32;
    for _ in 0..u64::MAX {
        let Some(row) = engine.dirty(from) else {
            break;
        };
        match engine.flush(row.page) {
            Ok(()) | Err(Fault::NothingToDo) => {}
            Err(fault) => return Err(fault),
        }
        from = row.page.saturating_add(1);
    }
    Ok(())
}

/// Prints nanoseconds a change of each part.
fn report<R: Print>(
    rt: &R,
    place: &str,
    size: Size,
    answer: Result<Split, Fault>,
) -> io::Result<()> {
    let split = match answer {
        Ok(split) => split,
        Err(fault) => return println!(rt; "{fault}"),
    };
    println!(rt;
        "feed and redo {place}, {} pages, {} frames: {} changes, feed {} ns, redo {} ns, page writes {} ns, page syncs {} ns a change",
        size.pages,
        size.frames,
        split.changes,
        each(split.fed, split.changes),
        each(split.redone, split.changes),
        each(split.flushed, split.changes),
        each(split.synced, split.changes)
    )
}

/// Nanoseconds a change.
fn each(took: Duration, changes: u64) -> u64 {
    u64::try_from(took.as_nanos()).unwrap_or(u64::MAX) / changes.max(1)
}
