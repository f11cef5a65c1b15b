use super::script::{CHECKPOINTED, FORCED, SEALED, script};
use super::standby::{CONFIG, standby, take};
use super::text::{SIX_LONG, TEXT};
use als_disk::{BlockDisk, MemDisk};
use als_engine::{Disks, Engine, Fault};
use als_record::Lsn;
use std::alloc::Global;
use std::process::Abort;
use std::sync::Wait;

/// A block of stopped devices.
#[derive(Clone, Copy, Debug, PartialEq, Eq)]
enum Part {
    /// The control block.
    Control,
    /// The first block of the first region, where the first checkpoint goes.
    Checkpoint,
    /// The log's first block.
    Log,
}

/// The device of a block, and its number there.
fn place(disks: &mut Disks<MemDisk>, part: Part) -> (&mut MemDisk, u64) {
    match part {
        Part::Control => (&mut disks.control, 0),
        Part::Checkpoint => (&mut disks.control, 1),
        Part::Log => (&mut disks.log, 0),
    }
}

/// A block's bytes. None: there is no such block.
fn block_of(disks: &mut Disks<MemDisk>, part: Part) -> Option<[u8; 512]> {
    let (disk, number) = place(disks, part);
    if disk.blocks() <= number {
        return None;
    }
    let mut block = [0; 512];
    match disk.read(number, &mut block) {
        Ok(()) => Some(block),
        Err(_) => None,
    }
}

/// Gives a block other bytes. None: allocation failed.
fn put(disks: &mut Disks<MemDisk>, part: Part, block: &[u8; 512]) -> Option<()> {
    let (disk, number) = place(disks, part);
    if disk.blocks() <= number {
        return None;
    }
    match disk.write(number, block) {
        Ok(()) => Some(()),
        Err(_) => None,
    }
}

/// The devices of a standby that was stopped after so many steps of the script. None: memory was
/// refused.
fn stopped<R: Wait + Abort>(rt: &R, alloc: Global, taken: usize) -> Option<Disks<MemDisk>> {
    let mut engine = standby(rt, alloc, 8)?;
    let steps = script(&TEXT);
    take(rt, &mut engine, steps.get(..taken)?)?;
    Some(engine.into_disks(rt))
}

/// Where the log ends that a standby over these devices holds, or why they are refused. The devices
/// come back.
fn answer<R: Wait>(
    rt: &R,
    alloc: Global,
    disks: Disks<MemDisk>,
) -> (Disks<MemDisk>, Result<Lsn, Fault>) {
    match Engine::open(alloc, rt, disks, CONFIG) {
        Ok((engine, _)) => {
            let end = engine.status().end;
            (engine.into_disks(rt), Ok(end))
        }
        Err(refused) => (refused.disks, Err(refused.fault)),
    }
}

/// The checkpoint has its numbers and two transactions in its first 82 bytes, and then a row of
/// page 0. Any other number is not that of the log. Its row may name another page, and its RecLSN
/// is not looked at, nor what is behind it.
fn is_checkpoint_answer(at: usize, byte: u8, answer: Result<Lsn, Fault>) -> bool {
    let is_taken = match at {
        39 => byte == 0,
        85 => byte == 1,
        _ => 86 <= at,
    };
    if is_taken {
        answer == Ok(Lsn(153))
    } else {
        answer == Err(Fault::BadControl)
    }
}

/// A byte of the header is the header's matter, and from the mark on none is read. Between them a
/// record may be another one, or be refused.
fn is_log_answer(at: usize, answer: Result<Lsn, Fault>) -> bool {
    if at < 16 {
        return answer == Err(Fault::BadHeader);
    }
    if 153 <= at {
        return answer == Ok(Lsn(153));
    }
    match answer {
        Ok(end) => end == Lsn(153),
        Err(fault) => fault == Fault::BadControl || (2..=16).contains(&fault.number()),
    }
}

/// A mark among zeros stands behind no record. A block of version 1 has no history, as that of a log
/// that was never sealed. All else in the control block is checked.
fn is_control_answer(taken: usize, at: usize, byte: u8, answer: Result<Lsn, Fault>) -> bool {
    match (at, byte) {
        (9, 1) if taken < SEALED => answer == Ok(Lsn(153)),
        (22, 1) | (23, 255) => answer == Err(Fault::BadLength),
        _ => answer == Err(Fault::BadControl),
    }
}

/// How devices are opened of which one byte was altered, after so many steps of the script.
fn is_answer(part: Part, taken: usize, at: usize, byte: u8, answer: Result<Lsn, Fault>) -> bool {
    match part {
        Part::Control => is_control_answer(taken, at, byte, answer),
        Part::Checkpoint => is_checkpoint_answer(at, byte, answer),
        Part::Log => is_log_answer(at, answer),
    }
}

/// Devices are opened with each byte of a block set to 0, 1 and 255 in turn. None: memory was
/// refused.
fn opens_with_each_byte<R: Wait + Abort>(
    rt: &R,
    alloc: Global,
    taken: usize,
    part: Part,
) -> Option<()> {
    let mut disks = stopped(rt, alloc, taken)?;
    let block = block_of(&mut disks, part)?;
    for at in 0..512 {
        for byte in [0, 1, 255] {
            let mut altered = block;
            altered[at] = byte;
            put(&mut disks, part, &altered)?;
            let (back, found) = answer(rt, alloc, disks);
            disks = back;
            if found == Err(Fault::Memory) {
                return None;
            }
            if block[at] == byte {
                assert!(rt; found == Ok(Lsn(153)));
            } else {
                assert!(rt;
                    is_answer(part, taken, at, byte, found),
                    "{part:?} with {byte} at {at}: {found:?}"
                );
            }
        }
    }
    Some(())
}

#[test]
fn each_byte_of_a_block_is_checked(rt: HostRuntime) {
    let blocks = [
        (CHECKPOINTED, Part::Control),
        (SEALED, Part::Control),
        (CHECKPOINTED, Part::Checkpoint),
        (CHECKPOINTED, Part::Log),
    ];
    for (taken, part) in blocks {
        let alloc = rt.alloc();
        assert!(rt;
            opens_with_each_byte(&rt, alloc, taken, part).is_some()
                || opens_with_each_byte(&rt, alloc, taken, part).is_some()
        );
    }
}

/// A byte of a block is set to this.
#[derive(Clone, Copy)]
struct Change {
    part: Part,
    at: usize,
    byte: u8,
}

/// Sets a byte of a block. None: allocation failed.
fn set(disks: &mut Disks<MemDisk>, change: &Change) -> Option<()> {
    let mut block = block_of(disks, change.part)?;
    *block.get_mut(change.at)? = change.byte;
    put(disks, change.part, &block)
}

/// Devices are stopped after so many steps and opened with these bytes. None: allocation failed.
fn opens_so<R: Wait + Abort>(
    rt: &R,
    alloc: Global,
    taken: usize,
    changes: &[Change],
    wanted: Result<Lsn, Fault>,
) -> Option<()> {
    let mut disks = stopped(rt, alloc, taken)?;
    for change in changes {
        set(&mut disks, change)?;
    }
    let (disks, found) = answer(rt, alloc, disks);
    drop(disks);
    if found == Err(Fault::Memory) {
        return None;
    }
    assert!(rt; found == wanted);
    Some(())
}

/// A byte of the control block.
const fn control(at: usize, byte: u8) -> Change {
    Change {
        part: Part::Control,
        at,
        byte,
    }
}

/// A byte of the checkpoint's first block.
const fn checkpoint(at: usize, byte: u8) -> Change {
    Change {
        part: Part::Checkpoint,
        at,
        byte,
    }
}

#[test]
fn what_the_control_device_says_is_checked(rt: HostRuntime) {
    let refused = Err(Fault::BadControl);
    let rows: [(usize, &[Change], Result<Lsn, Fault>); 7] = [
        // The mark stands behind a record, within one, or past the log device.
        (FORCED, &[control(23, 80)], Ok(Lsn(80))),
        (FORCED, &[control(23, 100)], refused),
        (FORCED, &[control(22, 16), control(23, 1)], refused),
        // The checkpoint's position stands within a record, or behind one before which the numbers
        // are others.
        (CHECKPOINTED, &[control(31, 60), checkpoint(7, 60)], refused),
        (CHECKPOINTED, &[control(31, 80), checkpoint(7, 80)], refused),
        // It counts one commit too many.
        (CHECKPOINTED, &[checkpoint(27, 2)], refused),
        // The other region is the published one, and has none.
        (CHECKPOINTED, &[control(11, 2)], refused),
    ];
    for (taken, changes, wanted) in rows {
        let alloc = rt.alloc();
        assert!(rt;
            opens_so(&rt, alloc, taken, changes, wanted).is_some()
                || opens_so(&rt, alloc, taken, changes, wanted).is_some()
        );
    }
}

/// A log device of one block holds a log that leaves no room for its tail. None: memory was
/// refused.
fn leaves_no_room<R: Wait + Abort>(rt: &R, alloc: Global) -> Option<()> {
    let mut disks = standby(rt, alloc, 1)?.into_disks(rt);
    let mut log = block_of(&mut disks, Part::Log)?;
    log[16..233].copy_from_slice(&SIX_LONG);
    put(&mut disks, Part::Log, &log)?;
    set(&mut disks, &control(23, 233))?;
    let (disks, found) = answer(rt, alloc, disks);
    drop(disks);
    if found == Err(Fault::Memory) {
        return None;
    }
    assert!(rt; found == Err(Fault::LogFull));
    Some(())
}

#[test]
fn a_log_that_leaves_no_room_for_its_tail_is_refused(rt: HostRuntime) {
    let alloc = rt.alloc();
    assert!(rt; leaves_no_room(&rt, alloc).is_some() || leaves_no_room(&rt, alloc).is_some());
}
