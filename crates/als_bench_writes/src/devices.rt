use als_disk::{BlockDisk, MemDisk};
use als_drive::drain;
use als_engine::{CONTROL_BLOCKS, Config, Disks, Engine, Fault};
use std::alloc::Global;
use std::sync::Wait;

/// The blocks of a log's device, for 64 MB.
const LOG_BLOCKS: u64 = 131_072;

/// Devices in memory for a database of this many pages.
pub fn disks_of(alloc: Global, pages: u32) -> Disks<MemDisk> {
    Disks {
        log: MemDisk::new(alloc, LOG_BLOCKS),
        control: MemDisk::new(alloc, CONTROL_BLOCKS),
        pages: MemDisk::new(alloc, u64::from(pages)),
    }
}

/// An engine over new devices, all of whose pages can be in memory.
pub fn new_engine<R: Wait, D: BlockDisk + Drop>(
    rt: &R,
    alloc: Global,
    disks: Disks<D>,
    pages: u32,
) -> Result<Engine<D>, Fault> {
    let config = Config {
        pages: u64::from(pages),
        frames: u64::from(pages),
        pending: 1_000_000,
        readers: 1,
    };
    match Engine::format(alloc, rt, disks, config) {
        Ok((engine, _)) => Ok(engine),
        Err(refused) => Err(refused.fault),
    }
}

/// Writes and syncs the log, and redoes what waits.
pub fn write_out<D: BlockDisk + Drop>(engine: &mut Engine<D>) -> Result<(), Fault> {
    for _ in 0..u64::MAX {
        match engine.log_write() {
            Ok(()) => {}
            Err(Fault::NothingToDo) => break,
            Err(fault) => return Err(fault),
        }
    }
    engine.log_sync()?;
    drain(engine)
}
