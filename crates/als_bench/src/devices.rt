use als_disk::{BlockDisk, FileDisk, FirstError, MemDisk};
use als_engine::{Config, Disks, Engine, Fault};
use als_sample_logs::PAGES;
use std::alloc::Global;
use std::fs::{self, File};
use std::io;
use std::rt::Files;
use std::sync::Wait;

/// The blocks of a control device.
const CONTROL: u64 = 321;

/// The sizes of a standby.
#[derive(Clone, Copy)]
pub struct Size {
    pub pages: u32,
    pub frames: u32,
    /// How its device files are named.
    pub name: &'static str,
}

impl Size {
    /// The largest database, all of whose pages can be in memory.
    pub const LARGEST: Size = Size {
        pages: PAGES,
        frames: PAGES,
        name: "followed",
    };
}

/// How many blocks a log device needs for a text and for what a takeover would append.
fn log_blocks(text: &[u8]) -> u64 {
    (text.len() as u64 / 512).saturating_add(1 << 16)
}

/// Devices in memory for a log.
pub fn in_memory(alloc: Global, text: &[u8], size: Size) -> Disks<MemDisk> {
    Disks {
        log: MemDisk::new(alloc, log_blocks(text)),
        control: MemDisk::new(alloc, CONTROL),
        pages: MemDisk::new(alloc, u64::from(size.pages)),
    }
}

/// Device files in a folder, which are made anew.
pub fn in_folder<R: AllocGlobal + Files<File = File>>(
    rt: &R,
    folder: &str,
    text: &[u8],
    size: Size,
) -> io::Result<Disks<FileDisk>> {
    let name = size.name;
    let log = format!(in rt.alloc(); "{folder}/{name}-log.blk")?;
    let control = format!(in rt.alloc(); "{folder}/{name}-control.blk")?;
    let pages = format!(in rt.alloc(); "{folder}/{name}-pages.blk")?;
    Ok(Disks {
        log: anew(rt, log.as_str(), log_blocks(text))?,
        control: anew(rt, control.as_str(), CONTROL)?,
        pages: anew(rt, pages.as_str(), u64::from(size.pages))?,
    })
}

/// A device file, made anew.
fn anew<R: AllocGlobal + Files<File = File>>(
    rt: &R,
    path: &str,
    blocks: u64,
) -> io::Result<FileDisk> {
    match fs::remove_file(rt, path) {
        Ok(()) => {}
        Err(e) if e.kind() == io::ErrorKind::NotFound => {}
        Err(e) => return Err(e),
    }
    FileDisk::create(rt, path, blocks, FirstError::new(rt.alloc())?)
}

/// What a standby is made with.
pub fn config(size: Size) -> Config {
    Config {
        pages: u64::from(size.pages),
        frames: u64::from(size.frames),
        pending: 1_000_000,
        readers: 1,
    }
}

/// A standby over new devices.
pub fn standby<R: Wait, D: BlockDisk + Drop>(
    rt: &R,
    alloc: Global,
    disks: Disks<D>,
    size: Size,
) -> Result<Engine<D>, Fault> {
    match Engine::format(alloc, rt, disks, config(size)) {
        Ok((engine, _)) => Ok(engine),
        Err(refused) => Err(refused.fault),
    }
}

/// Writes each block of the log with unwritten bytes.
pub fn write_all<D: BlockDisk + Drop>(engine: &mut Engine<D>) {
    for _ in 0..u64::MAX {
        if engine.log_write().is_err() {
            break;
        }
    }
}
