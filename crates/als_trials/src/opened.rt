use crate::answers;
use crate::laid::{Laid, write};
use crate::trouble::Trouble;
use als_disk::{BlockDisk, MemDisk};
use als_engine::{Config, Disks, Engine};
use std::alloc::Global;
use std::sync::Wait;

/// A standby of four pages.
pub const CONFIG: Config = Config {
    pages: 4,
    frames: 4,
    pending: 1000,
    readers: 1,
};

/// The values to which a byte of a control block is set in turn.
const VALUES: [u8; 3] = [0, 1, 255];

/// Formats new devices, of which the log's has so many blocks.
pub fn format<R: Wait>(
    alloc: Global,
    rt: &R,
    disks: Disks<MemDisk>,
) -> Result<(Laid, String), Trouble> {
    match Engine::format(alloc, rt, disks, CONFIG) {
        Ok((engine, _)) => Ok((Laid::Up(engine), String::from_str(alloc, "ok")?)),
        Err(refused) => Ok((
            Laid::Down(refused.disks),
            answers::refused(alloc, refused.fault)?,
        )),
    }
}

/// Opens a standby over devices, or keeps them.
pub fn open<R: Wait>(
    alloc: Global,
    rt: &R,
    disks: Disks<MemDisk>,
) -> Result<(Laid, String), Trouble> {
    match Engine::open(alloc, rt, disks, CONFIG) {
        Ok((engine, _)) => {
            let end = engine.status().end.0;
            Ok((Laid::Up(engine), format!(in alloc; "ok end={end}")?))
        }
        Err(refused) => Ok((
            Laid::Down(refused.disks),
            answers::refused(alloc, refused.fault)?,
        )),
    }
}

/// Opens devices with a byte of the control block set to each of three values in turn: the devices
/// as they were, and a word for each, the number of the fault or the end of the log.
pub fn open_altered<R: Wait>(
    alloc: Global,
    rt: &R,
    disks: Disks<MemDisk>,
    at: usize,
) -> Result<(Disks<MemDisk>, String), Trouble> {
    let mut disks = disks;
    let mut words = String::new(alloc);
    for value in VALUES {
        disks = open_with(alloc, rt, disks, at, value, &mut words)?;
    }
    Ok((disks, words))
}

/// Opens devices with one byte of the control block set, which is then set back.
fn open_with<R: Wait>(
    alloc: Global,
    rt: &R,
    disks: Disks<MemDisk>,
    at: usize,
    value: u8,
    words: &mut String,
) -> Result<Disks<MemDisk>, Trouble> {
    let mut disks = disks;
    let kept = control_block(&mut disks.control)?;
    let block = altered(kept, at, value).ok_or(Trouble::NoTrial)?;
    write(&mut disks.control, 0, &block)?;
    let (mut disks, word) = open_briefly(alloc, rt, disks)?;
    put_word(words, word.as_str())?;
    write(&mut disks.control, 0, &kept)?;
    Ok(disks)
}

/// A block with one byte set.
fn altered(block: [u8; 512], at: usize, value: u8) -> Option<[u8; 512]> {
    if at >= 512 {
        return None;
    }
    let mut block = block;
    block[at] = value;
    Some(block)
}

/// Opens devices and stops: the devices, and a word, the number of the fault or the end of the log.
fn open_briefly<R: Wait>(
    alloc: Global,
    rt: &R,
    disks: Disks<MemDisk>,
) -> Result<(Disks<MemDisk>, String), Trouble> {
    match Engine::open(alloc, rt, disks, CONFIG) {
        Ok((engine, _)) => {
            let end = engine.status().end.0;
            Ok((engine.into_disks(rt), format!(in alloc; "end={end}")?))
        }
        Err(refused) => {
            let number = refused.fault.number();
            Ok((refused.disks, format!(in alloc; "{number}")?))
        }
    }
}

/// Puts a word behind those of a line.
fn put_word(words: &mut String, word: &str) -> Result<(), Trouble> {
    if !words.is_empty() {
        words.push(' ')?;
    }
    words.push_str(word)?;
    Ok(())
}

/// The first block of a device.
fn control_block(disk: &mut MemDisk) -> Result<[u8; 512], Trouble> {
    let mut block = [0; 512];
    if disk.blocks() == 0 {
        return Err(Trouble::NoTrial);
    }
    match disk.read(0, &mut block) {
        Ok(()) => Ok(block),
        Err(_) => Err(Trouble::NoTrial),
    }
}
