use crate::answers;
use crate::opened::{CONFIG, format, open, open_altered};
use crate::trouble::Trouble;
use als_disk::{BlockDisk, MemDisk};
use als_engine::{CONTROL_BLOCKS, Disks, Engine};
use als_script::Words;
use std::alloc::Global;
use std::sync::Wait;

/// Devices in memory whose blocks a trial lays, or the standby over them.
pub enum Laid {
    Down(Disks<MemDisk>),
    Up(Engine<MemDisk>),
}

// Written out: a derived drop is proved part by part wherever a value is dropped, this one only
// here.
impl Drop for Laid {
    fn drop(self) {
        match self {
            Laid::Down(disks) => drop(disks),
            Laid::Up(engine) => drop(engine),
        }
    }
}

impl Laid {
    /// Devices with zeros, of which the log's has so many blocks.
    pub fn blank(alloc: Global, log_blocks: u64) -> Laid {
        Laid::Down(Disks {
            log: MemDisk::new(alloc, log_blocks),
            control: MemDisk::new(alloc, CONTROL_BLOCKS),
            pages: MemDisk::new(alloc, CONFIG.pages),
        })
    }

    /// Does what a line says: what is left, and what is answered, if anything is.
    pub fn take<R: Wait>(
        self,
        alloc: Global,
        rt: &R,
        line: &str,
    ) -> Result<(Laid, String), Trouble> {
        match self {
            Laid::Down(disks) => take_down(alloc, rt, disks, line),
            Laid::Up(engine) => take_up(alloc, rt, engine, line),
        }
    }

    /// Ends it, and frees what readers looked at.
    pub fn end<R: Wait>(self, rt: &R) {
        match self {
            Laid::Down(disks) => drop(disks),
            Laid::Up(engine) => drop(engine.into_disks(rt)),
        }
    }
}

/// A line over devices: `log I HEX`, `control I HEX` and `pages I HEX` lay the front of a block,
/// `altered B` opens them with a byte of the control block altered, `open` and `format` begin.
fn take_down<R: Wait>(
    alloc: Global,
    rt: &R,
    disks: Disks<MemDisk>,
    line: &str,
) -> Result<(Laid, String), Trouble> {
    let mut words = Words::of(line);
    let mut disks = disks;
    match words.next() {
        Some("log") => lay(alloc, &mut disks.log, words)?,
        Some("control") => lay(alloc, &mut disks.control, words)?,
        Some("pages") => lay(alloc, &mut disks.pages, words)?,
        Some("altered") => {
            let at = words.number().ok_or(Trouble::NoTrial)?;
            let (disks, answer) = open_altered(alloc, rt, disks, at)?;
            return Ok((Laid::Down(disks), answer));
        }
        Some("open") => return open(alloc, rt, disks),
        Some("format") => return format(alloc, rt, disks),
        _ => return Err(Trouble::NoTrial),
    }
    Ok((Laid::Down(disks), String::new(alloc)))
}

/// A line over a standby: `stop` ends it with no crash, the others are events and queries.
fn take_up<R: Wait>(
    alloc: Global,
    rt: &R,
    engine: Engine<MemDisk>,
    line: &str,
) -> Result<(Laid, String), Trouble> {
    let mut words = Words::of(line);
    let mut engine = engine;
    let answer = match words.next() {
        Some("stop") => {
            let disks = engine.into_disks(rt);
            return Ok((Laid::Down(disks), String::new(alloc)));
        }
        Some("ready") => answers::of(alloc, engine.ready(rt)),
        Some("lend") => answers::lent(alloc, engine.lend(words.number().ok_or(Trouble::NoTrial)?)),
        Some("feed") => {
            let piece = hex::decode(alloc, words.next().unwrap_or("").as_bytes())?;
            answers::feed(alloc, &mut engine, piece.as_slice())
        }
        Some("show") => answers::status(alloc, &engine),
        _ => Err(Trouble::NoTrial),
    };
    Ok((Laid::Up(engine), answer?))
}

/// Writes a block that begins with these bytes, and syncs it.
fn lay(alloc: Global, disk: &mut MemDisk, words: Words) -> Result<(), Trouble> {
    let mut words = words;
    let i = words.number().ok_or(Trouble::NoTrial)?;
    let front = hex::decode(alloc, words.next().ok_or(Trouble::NoTrial)?.as_bytes())?;
    let mut block = [0; 512];
    for (byte, given) in block.iter_mut().zip(front.iter()) {
        *byte = *given;
    }
    write(disk, i, &block)
}

/// Writes a block, and syncs it.
pub fn write(disk: &mut MemDisk, i: u64, block: &[u8; 512]) -> Result<(), Trouble> {
    if i >= disk.blocks() {
        return Err(Trouble::NoTrial);
    }
    if disk.write(i, block).is_err() || disk.sync().is_err() {
        return Err(Trouble::Memory);
    }
    Ok(())
}
