use crate::devices::{Size, in_folder, in_memory, standby};
use crate::split::Split;
use crate::turn::{feed, force, settle, store};
use als_disk::{BlockDisk, FileDisk, MemDisk};
use als_engine::{Engine, Fault};
use als_sample_logs::{FIRST, tell};
use std::fs::File;
use std::io;
use std::rt::{Clock, Files};
use std::sync::Wait;

/// The bytes of a frame.
const FRAME: usize = 65_536;

/// Follows a log in frames: each is fed and forced, its commits are published, and it is redone.
/// Now and then the pages are stored and a checkpoint is taken. Over devices in memory, and over
/// files where a folder is given.
pub fn follow_all<R: Print + Clock + AllocGlobal + Files<File = File> + Wait>(
    rt: &R,
    text: &[u8],
    folder: Option<&str>,
) -> io::Result<()> {
    follow_in_memory(rt, text)?;
    match folder {
        Some(folder) => follow_on_files(rt, text, folder),
        None => Ok(()),
    }
}

fn follow_in_memory<R: Print + Clock + AllocGlobal + Wait>(rt: &R, text: &[u8]) -> io::Result<()> {
    let disks = in_memory(rt.alloc(), text, Size::LARGEST);
    match standby(rt, rt.alloc(), disks, Size::LARGEST) {
        Ok(engine) => follow_memory_engine(rt, engine, text),
        Err(fault) => println!(rt; "{fault}"),
    }
}

fn follow_memory_engine<R: Print + Clock + Wait>(
    rt: &R,
    engine: Engine<MemDisk>,
    text: &[u8],
) -> io::Result<()> {
    let mut engine = engine;
    let answer = follow_frames(rt, &mut engine, text);
    drop(engine.into_disks(rt));
    report(rt, "follow in memory", text, answer?)
}

fn follow_on_files<R: Print + Clock + AllocGlobal + Files<File = File> + Wait>(
    rt: &R,
    text: &[u8],
    folder: &str,
) -> io::Result<()> {
    let disks = in_folder(rt, folder, text, Size::LARGEST)?;
    match standby(rt, rt.alloc(), disks, Size::LARGEST) {
        Ok(engine) => follow_file_engine(rt, engine, text),
        Err(fault) => println!(rt; "{fault}"),
    }
}

fn follow_file_engine<R: Print + Clock + Wait>(
    rt: &R,
    engine: Engine<FileDisk>,
    text: &[u8],
) -> io::Result<()> {
    let mut engine = engine;
    let answer = follow_frames(rt, &mut engine, text);
    drop(engine.into_disks(rt));
    report(rt, "follow on files", text, answer?)
}

/// Follows each frame.
fn follow_frames<R: Clock + Wait, D: BlockDisk + Drop>(
    rt: &R,
    engine: &mut Engine<D>,
    text: &[u8],
) -> io::Result<Result<Split, Fault>> {
    let mut split = Split::NOTHING;
    for frame in text.get(FIRST..).unwrap_or(&[]).chunks(FRAME) {
        if let Err(fault) = follow_frame(rt, engine, &mut split, frame)? {
            return Ok(Err(fault));
        }
    }
    match store(rt, engine, &mut split)? {
        Ok(()) => Ok(Ok(split)),
        Err(fault) => Ok(Err(fault)),
    }
}

fn follow_frame<R: Clock + Wait, D: BlockDisk + Drop>(
    rt: &R,
    engine: &mut Engine<D>,
    split: &mut Split,
    frame: &[u8],
) -> io::Result<Result<(), Fault>> {
    if let Err(fault) = feed(rt, engine, split, frame)? {
        return Ok(Err(fault));
    }
    match force(rt, engine, split)? {
        Ok(_acknowledged) => settle(rt, engine, split),
        Err(fault) => Ok(Err(fault)),
    }
}

/// Prints the whole and its parts.
pub fn report<R: Print>(
    rt: &R,
    name: &str,
    text: &[u8],
    answer: Result<Split, Fault>,
) -> io::Result<()> {
    match answer {
        Ok(split) => {
            tell(
                rt,
                name,
                Some(FRAME),
                text.len(),
                split.records,
                split.whole(),
            )?;
            split.tell(rt)
        }
        Err(fault) => println!(rt; "{fault}"),
    }
}
