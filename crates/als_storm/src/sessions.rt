use crate::standbys::CONFIG;
use crate::trouble::Trouble;
use als_disk::BlockDisk;
use als_engine::{Disks, Engine, Events, Fault};
use als_follow::{Followed, follow_beside};
use als_operate::follow;
use als_share::Counts;
use std::alloc::Global;
use std::io::{Read, Write};
use std::sync::Wait;
use std::thread::Threads;

/// A checkpoint is due each so many bytes of log: after each frame.
const EACH: u64 = 8192;

/// Follows a session with so many workers; with 0 in one thread, as `als standby --workers 0`.
pub fn follow_with<
    E: Counts + Send + Drop,
    R: Threads + Wait + Sync,
    I: Read + Drop,
    O: Write + Drop,
>(rt: &R, alloc: Global, engine: E, workers: usize, reader: I, writer: O) -> Followed<E, I, O> {
    if workers > 0 {
        return follow_beside(rt, alloc, engine, workers, EACH, reader, writer);
    }
    let (mut engine, mut reader, mut writer) = (engine, reader, writer);
    let ended = Some(follow(rt, alloc, &mut engine, EACH, &mut reader, &mut writer));
    Followed {
        engine,
        reader,
        writer,
        ended,
    }
}

/// A standby over devices: a new one where `anew`, else what they hold. A failed device gives them
/// back.
pub fn begin<R: Wait, D: BlockDisk + Drop>(
    rt: &R,
    alloc: Global,
    disks: Disks<D>,
    anew: bool,
) -> Result<Result<Engine<D>, Disks<D>>, Trouble> {
    if anew {
        format(rt, alloc, disks)
    } else {
        open(rt, alloc, disks)
    }
}

fn format<R: Wait, D: BlockDisk + Drop>(
    rt: &R,
    alloc: Global,
    disks: Disks<D>,
) -> Result<Result<Engine<D>, Disks<D>>, Trouble> {
    match Engine::format(alloc, rt, disks, CONFIG) {
        Ok((engine, _)) => Ok(Ok(engine)),
        Err(refused) => back(refused.disks, refused.fault),
    }
}

fn open<R: Wait, D: BlockDisk + Drop>(
    rt: &R,
    alloc: Global,
    disks: Disks<D>,
) -> Result<Result<Engine<D>, Disks<D>>, Trouble> {
    match Engine::open(alloc, rt, disks, CONFIG) {
        Ok((engine, _)) => Ok(Ok(engine)),
        Err(refused) => back(refused.disks, refused.fault),
    }
}

/// The devices over which no standby began, if one of them failed.
fn back<D: BlockDisk + Drop>(
    disks: Disks<D>,
    fault: Fault,
) -> Result<Result<Engine<D>, Disks<D>>, Trouble> {
    match fault {
        Fault::Device => Ok(Err(disks)),
        Fault::Memory => Err(Trouble::Memory),
        _ => Err(Trouble::Lost("a beginning is refused by another fault than 30")),
    }
}

/// What a standby holds.
#[derive(Drop)]
pub struct Left {
    /// The blocks of the log device.
    log: Vec<u8>,
    /// The blocks of the pages' device.
    pages: Vec<u8>,
}

impl Left {
    /// What this standby holds.
    pub fn of<R: Wait, D: BlockDisk + Drop>(
        rt: &R,
        alloc: Global,
        engine: Engine<D>,
    ) -> Result<Left, Trouble> {
        let mut disks = engine.into_disks(rt);
        Left::on(alloc, &mut disks)
    }

    /// What these devices hold.
    pub fn on<D: BlockDisk>(alloc: Global, disks: &mut Disks<D>) -> Result<Left, Trouble> {
        let log = blocks_of(alloc, &mut disks.log, u64::MAX)?;
        let pages = blocks_of(alloc, &mut disks.pages, u64::MAX)?;
        Ok(Left { log, pages })
    }

    /// Whether two standbys hold the same.
    pub fn is_same(&self, other: &Left) -> bool {
        self.log.as_slice() == other.log.as_slice()
            && self.pages.as_slice() == other.pages.as_slice()
    }
}

/// The blocks of a device that have its first bytes, one behind another.
pub fn blocks_of<D: BlockDisk>(
    alloc: Global,
    disk: &mut D,
    bytes: u64,
) -> Result<Vec<u8>, Trouble> {
    let count = disk.blocks().min(bytes.div_ceil(512));
    let mut bytes = Vec::new(alloc);
    for i in 0..count {
        put_block(disk, i, &mut bytes)?;
    }
    Ok(bytes)
}

fn put_block<D: BlockDisk>(disk: &mut D, i: u64, bytes: &mut Vec<u8>) -> Result<(), Trouble> {
    let mut block = [0; 512];
    if i >= disk.blocks() || disk.read(i, &mut block).is_err() {
        return Err(Trouble::Lost("a block cannot be read"));
    }
    bytes.extend_from_slice(&block)?;
    Ok(())
}

/// Whether all that is held is acknowledged, redone and written.
pub fn is_quiet<E: Events>(engine: &E) -> bool {
    let status = engine.status();
    status.acknowledged == status.end
        && status.pending == 0
        && status.leases == 0
        && engine.dirty(0).is_none()
}
