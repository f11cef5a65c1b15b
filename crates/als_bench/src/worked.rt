use crate::devices::{Size, in_memory, standby};
use crate::redone::hold_frame;
use crate::session::{SessionTime, session};
use als_disk::{BlockDisk, MemDisk};
use als_engine::{Engine, Fault as EngineFault};
use als_operate::Fault;
use als_sample_logs::{FIRST, Primary, frames};
use std::io;
use std::rt::Clock;
use std::sync::Wait;
use std::thread::Threads;

/// The bytes of a frame.
const FRAME: usize = 65_536;

/// A log of more bytes has more changes than may wait.
const LOG_LIMIT: usize = 32 << 20;

/// The sizes of a standby with deep pages.
const DEEP: Size = Size {
    pages: 64,
    frames: 64,
    name: "worked",
};

/// Measures redo by workers: a whole log of 64 pages waits, and a session with no bytes leaves it to
/// be redone, in one thread and by 1, 2 and 4 workers. The page writes and the checkpoint behind it
/// are counted too.
pub fn work_all<R>(rt: &R, bytes: usize) -> io::Result<()>
where
    R: Print + Clock + AllocGlobal + Threads + Wait + Sync,
{
    let bytes = bytes.min(LOG_LIMIT);
    let written = Primary::new(rt.alloc(), 16, bytes, DEEP.pages);
    let text = match written.and_then(|primary| primary.write(bytes)) {
        Ok(text) => text,
        Err(fault) => return println!(rt; "{fault}"),
    };
    for workers in [0, 1, 2, 4] {
        work_log(rt, text.as_slice(), workers)?;
    }
    Ok(())
}

fn work_log<R>(rt: &R, text: &[u8], workers: usize) -> io::Result<()>
where
    R: Print + Clock + AllocGlobal + Threads + Wait + Sync,
{
    let disks = in_memory(rt.alloc(), text, DEEP);
    match standby(rt, rt.alloc(), disks, DEEP) {
        Ok(engine) => work_engine(rt, engine, text, workers),
        Err(fault) => println!(rt; "{fault}"),
    }
}

fn work_engine<R>(rt: &R, engine: Engine<MemDisk>, text: &[u8], workers: usize) -> io::Result<()>
where
    R: Print + Clock + AllocGlobal + Threads + Wait + Sync,
{
    let mut engine = engine;
    if let Err(fault) = hold_all(&mut engine, text) {
        drop(engine.into_disks(rt));
        return println!(rt; "{fault}");
    }
    let changes = engine.status().pending as u64;
    let sent = match frames(rt.alloc(), text, text.len(), FRAME) {
        Ok(sent) => sent,
        Err(fault) => return println!(rt; "{fault}"),
    };
    let (engine, ended) = session(rt, engine, workers, sent.as_slice())?;
    drop(engine.into_disks(rt));
    report(rt, workers, changes, ended)
}

/// Feeds and forces each frame of a log.
fn hold_all<D: BlockDisk + Drop>(engine: &mut Engine<D>, text: &[u8]) -> Result<(), EngineFault> {
    for frame in text.get(FIRST..).unwrap_or(&[]).chunks(FRAME) {
        hold_frame(engine, frame)?;
    }
    Ok(())
}

/// Prints nanoseconds a change.
fn report<R: Print>(
    rt: &R,
    workers: usize,
    changes: u64,
    ended: Option<Result<SessionTime, Fault>>,
) -> io::Result<()> {
    let took = match ended {
        Some(Ok(took)) => took,
        Some(Err(fault)) => return println!(rt; "{fault}"),
        None => return println!(rt; "a thread could not be started"),
    };
    let nanos = u64::try_from(took.put_away.as_nanos()).unwrap_or(u64::MAX);
    println!(rt;
        "redo by {workers} workers, deep, {} pages: {changes} changes, {} ns a change",
        DEEP.pages,
        nanos / changes.max(1)
    )
}
