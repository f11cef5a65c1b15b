use als_disk::BlockDisk;
use als_engine::{Engine, Events, Reader};
use als_follow::{Followed, follow_beside};
use als_operate::follow;
use als_record::Key;
use als_share::Counts;
use std::alloc::Global;
use std::io::{Read, Write};
use std::sync::Wait;
use std::thread::Threads;

/// A checkpoint is due each so many bytes of log: after each frame.
pub const EACH: u64 = 8192;

/// Follows a session with so many workers; with 0 in one thread, as `als standby --workers 0`.
pub fn follow_with<
    E: Counts + Send + Drop,
    R: Threads + Wait + Sync,
    I: Read + Drop,
    O: Write + Drop,
>(rt: &R, alloc: Global, engine: E, workers: usize, reader: I, writer: O) -> Followed<E, I, O> {
    follow_each(rt, alloc, engine, workers, EACH, reader, writer)
}

/// The same, with a checkpoint each so many bytes of log.
pub fn follow_each<
    E: Counts + Send + Drop,
    R: Threads + Wait + Sync,
    I: Read + Drop,
    O: Write + Drop,
>(
    rt: &R,
    alloc: Global,
    engine: E,
    workers: usize,
    each: u64,
    reader: I,
    writer: O,
) -> Followed<E, I, O> {
    if workers > 0 {
        return follow_beside(rt, alloc, engine, workers, each, reader, writer);
    }
    let (mut engine, mut reader, mut writer) = (engine, reader, writer);
    let ended = Some(follow(rt, alloc, &mut engine, each, &mut reader, &mut writer));
    Followed {
        engine,
        reader,
        writer,
        ended,
    }
}

/// Whether all that is held is acknowledged, redone and written.
pub fn is_quiet<E: Events>(engine: &E) -> bool {
    let status = engine.status();
    status.acknowledged == status.end
        && status.pending == 0
        && status.leases == 0
        && engine.dirty(0).is_none()
}

/// What a standby holds after a session.
#[derive(Drop)]
pub struct Left {
    /// The blocks of the log device.
    pub log: Vec<u8>,
    /// The blocks of the pages' device.
    pub pages: Vec<u8>,
    /// The commits that a reader sees.
    pub commits: u64,
}

impl Left {
    /// What this standby holds. `None`: allocation failed.
    pub fn of<R: Wait, D: BlockDisk + Drop>(
        rt: &R,
        alloc: Global,
        engine: Engine<D>,
        reader: Reader,
    ) -> Option<Left> {
        let mut reader = reader;
        let answer = reader.get(Key { page: 0, slot: 0 }).ok()?;
        let mut disks = engine.into_disks(rt);
        let log = blocks_of(alloc, &mut disks.log)?;
        let pages = blocks_of(alloc, &mut disks.pages)?;
        Some(Left {
            log,
            pages,
            commits: answer.commits,
        })
    }

    /// Whether two standbys hold the same.
    pub fn is_same(&self, other: &Left) -> bool {
        self.log.as_slice() == other.log.as_slice()
            && self.pages.as_slice() == other.pages.as_slice()
            && self.commits == other.commits
    }
}

/// The blocks of a device, one behind another.
fn blocks_of<D: BlockDisk>(alloc: Global, disk: &mut D) -> Option<Vec<u8>> {
    let mut bytes = Vec::new(alloc);
    for i in 0..disk.blocks() {
        put_block(disk, i, &mut bytes)?;
    }
    Some(bytes)
}

fn put_block<D: BlockDisk>(disk: &mut D, i: u64, bytes: &mut Vec<u8>) -> Option<()> {
    if i >= disk.blocks() {
        return None;
    }
    let mut block = [0; 512];
    disk.read(i, &mut block).ok()?;
    bytes.extend_from_slice(&block).ok()
}
