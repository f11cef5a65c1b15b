use crate::devices::{Size, in_folder, in_memory, standby};
use crate::session::{SessionTime, millis, session, speed};
use als_operate::Fault;
use als_sample_logs::{FIRST, frames};
use std::fs::File;
use std::io;
use std::rt::{Clock, Files};
use std::sync::Wait;
use std::thread::Threads;

/// The bytes of a frame.
const FRAME: usize = 65_536;

/// The sizes of a standby that follows with workers.
const BESIDE: Size = Size {
    name: "beside",
    ..Size::LARGEST
};

/// Follows whole sessions, in one thread and with 1, 2 and 4 workers: over devices in memory, and
/// over files where a folder is given. The frames lie in memory.
pub fn beside_all<R>(rt: &R, text: &[u8], folder: Option<&str>) -> io::Result<()>
where
    R: Print + Clock + AllocGlobal + Files<File = File> + Threads + Wait + Sync,
{
    let sent = match frames(rt.alloc(), text, FIRST, FRAME) {
        Ok(sent) => sent,
        Err(fault) => return println!(rt; "{fault}"),
    };
    for workers in [0, 1, 2, 4] {
        in_memory_with(rt, text, sent.as_slice(), workers)?;
    }
    let Some(folder) = folder else {
        return Ok(());
    };
    for workers in [0, 1, 2, 4] {
        on_files_with(rt, text, sent.as_slice(), workers, folder)?;
    }
    Ok(())
}

fn in_memory_with<R>(rt: &R, text: &[u8], sent: &[u8], workers: usize) -> io::Result<()>
where
    R: Print + Clock + AllocGlobal + Threads + Wait + Sync,
{
    let disks = in_memory(rt.alloc(), text, BESIDE);
    match standby(rt, rt.alloc(), disks, BESIDE) {
        Ok(engine) => {
            let (engine, ended) = session(rt, engine, workers, sent)?;
            drop(engine.into_disks(rt));
            report(rt, "in memory", workers, text.len(), ended)
        }
        Err(fault) => println!(rt; "{fault}"),
    }
}

fn on_files_with<R>(
    rt: &R,
    text: &[u8],
    sent: &[u8],
    workers: usize,
    folder: &str,
) -> io::Result<()>
where
    R: Print + Clock + AllocGlobal + Files<File = File> + Threads + Wait + Sync,
{
    let disks = in_folder(rt, folder, text, BESIDE)?;
    match standby(rt, rt.alloc(), disks, BESIDE) {
        Ok(engine) => {
            let (engine, ended) = session(rt, engine, workers, sent)?;
            drop(engine.into_disks(rt));
            report(rt, "on files", workers, text.len(), ended)
        }
        Err(fault) => println!(rt; "{fault}"),
    }
}

/// Prints MB a second up to the last answer, and up to the end.
fn report<R: Print>(
    rt: &R,
    place: &str,
    workers: usize,
    bytes: usize,
    ended: Option<Result<SessionTime, Fault>>,
) -> io::Result<()> {
    let took = match ended {
        Some(Ok(took)) => took,
        Some(Err(fault)) => return println!(rt; "{fault}"),
        None => return println!(rt; "a thread could not be started"),
    };
    let whole = took.acknowledged.saturating_add(took.put_away);
    println!(rt;
        "als standby --workers {workers} {place}, in pieces of {FRAME}: {} ms, {} MB/s acknowledged, all redone and written {} ms later, {} MB/s",
        millis(took.acknowledged),
        speed(bytes, took.acknowledged),
        millis(took.put_away),
        speed(bytes, whole)
    )
}
