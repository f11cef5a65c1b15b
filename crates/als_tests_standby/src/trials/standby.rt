use super::text::{OFFSETS, page_block, record_bytes};
use crate::common::redo;
use als_disk::MemDisk;
use als_engine::{Config, Disks, Engine, Fault, Reply, Step};
use als_record::{Lsn, encode};
use std::alloc::Global;
use std::process::Abort;
use std::sync::Wait;

/// A standby of four pages.
pub const CONFIG: Config = Config {
    pages: 4,
    frames: 4,
    pending: 1000,
    readers: 1,
};

/// A standby over new devices in memory, of which the log's has so many blocks. None: memory was
/// refused.
pub fn standby<R: Wait>(rt: &R, alloc: Global, blocks: u64) -> Option<Engine<MemDisk>> {
    let disks = Disks {
        log: MemDisk::new(alloc, blocks),
        control: MemDisk::new(alloc, 321),
        pages: MemDisk::new(alloc, 4),
    };
    match Engine::format(alloc, rt, disks, CONFIG) {
        Ok((engine, _)) => Some(engine),
        Err(_) => None,
    }
}

/// A part of a trial: an event, or a lease of a page that is lent, redone and given back.
#[derive(Clone, Copy, Debug)]
pub enum Act<'a> {
    Step(Step<'a>),
    Redo(u32),
}

impl<'a> Act<'a> {
    /// What a standby answers.
    pub fn over<R: Wait>(&self, rt: &R, engine: &mut Engine<MemDisk>) -> Reply {
        match self {
            Act::Step(step) => engine.step(rt, step),
            Act::Redo(page) => match redo(engine, *page) {
                Ok(_) => Reply::Done,
                Err(fault) => Reply::Refused(fault),
            },
        }
    }
}

/// Makes the acts. None: allocation failed, also to a device; nothing else refuses one.
pub fn take<R: Wait + Abort>(rt: &R, engine: &mut Engine<MemDisk>, acts: &[Act]) -> Option<()> {
    for act in acts {
        match act.over(rt, engine) {
            Reply::Refused(fault) => {
                assert!(rt;
                    fault == Fault::Memory || fault == Fault::Device,
                    "{act:?} was refused: {fault}"
                );
                return None;
            }
            Reply::FeedRefused(refusal) => {
                assert!(rt; refusal.fault == Fault::Memory);
                return None;
            }
            _ => {}
        }
    }
    Some(())
}

/// A standby over what devices hold. None: allocation failed; nothing else refuses it.
pub fn opened<R: Wait + Abort>(
    rt: &R,
    alloc: Global,
    disks: Disks<MemDisk>,
) -> Option<Engine<MemDisk>> {
    match Engine::open(alloc, rt, disks, CONFIG) {
        Ok((engine, _)) => Some(engine),
        Err(refused) => {
            assert!(rt; refused.fault == Fault::Memory);
            None
        }
    }
}

/// The records below the log's end are held, byte by byte, and none at or behind it. None: memory
/// was refused.
fn holds_records(
    rt: &impl Abort,
    alloc: Global,
    engine: &mut Engine<MemDisk>,
    end: Lsn,
) -> Option<()> {
    for index in 0..OFFSETS.len() {
        let lsn = Lsn(OFFSETS[index] as u64);
        let Ok(found) = engine.record_at(lsn) else {
            return None;
        };
        assert!(rt; found.is_some() == (lsn < end));
        if let Some(record) = found {
            let mut bytes = Vec::new(alloc);
            if encode(&record, &mut bytes).is_err() {
                return None;
            }
            assert!(rt; Some(bytes.as_slice()) == record_bytes(index));
        }
    }
    Some(())
}

/// Redoes all that waits for page 0. None: allocation failed.
fn drain(rt: &impl Abort, engine: &mut Engine<MemDisk>) -> Option<()> {
    match redo(engine, 0) {
        Ok(_) | Err(Fault::NothingToDo) => {}
        Err(fault) => {
            assert!(rt; fault == Fault::Memory);
            return None;
        }
    }
    assert!(rt; engine.status().pending == 0);
    Some(())
}

/// Page 0 is that of the log below an offset. None: the page could not be read.
pub fn holds_page(rt: &impl Abort, engine: &mut Engine<MemDisk>, end: Lsn) -> Option<()> {
    if engine.pages() == 0 {
        return None;
    }
    let Ok(page) = engine.page_now(0) else {
        return None;
    };
    let mut block = [0; 512];
    page.write_block(&mut block);
    assert!(rt;
        block == page_block(end),
        "another page 0 of the log that ends at {end:?}"
    );
    Some(())
}

/// A standby that began again holds the log up to its end, all of it acknowledged, and the page
/// that this log makes. The log reaches what was acknowledged before. None: allocation failed.
pub fn stands(
    rt: &impl Abort,
    alloc: Global,
    engine: &mut Engine<MemDisk>,
    acknowledged: Lsn,
) -> Option<()> {
    let status = engine.status();
    assert!(rt; acknowledged <= status.end);
    assert!(rt; status.acknowledged == status.end);
    assert!(rt; status.partial == 0);
    holds_records(rt, alloc, engine, status.end)?;
    drain(rt, engine)?;
    holds_page(rt, engine, status.end)
}
