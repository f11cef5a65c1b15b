use crate::logs::frames;
use crate::sessions::{Left, begin, blocks_of, follow_with, is_quiet};
use crate::standbys::{Disk, Fuses, Part, mend};
use crate::trouble::Trouble;
use als_drive::recover;
use als_engine::{Disks, Engine};
use als_follow::Followed;
use std::alloc::Global;
use std::sync::Wait;
use std::thread::Threads;

/// The numbers of the faults by which a disturbed session may end: a device failed, or the stream is
/// cut.
const ENDINGS: [u32; 2] = [30, 43];

/// Threads that have not started after so many tries, of a second each, never start.
const TRIES: u32 = 60;

/// What disturbs a session.
#[derive(Clone, Copy)]
pub struct Disturbance<'a> {
    /// The device that fails, and at which call from the beginning of the standby on.
    pub part: Part,
    pub call: u64,
    pub workers: usize,
    /// How many bytes of its stream come.
    pub stream: usize,
    /// What the crash at its end leaves.
    pub picks: &'a [u8],
}

/// What a disturbed session left.
#[derive(Drop)]
pub struct Wreck {
    pub disks: Disks<Disk>,
    /// They hold no standby yet: their formatting failed.
    pub is_new: bool,
    /// The session came to the end of the log.
    pub is_whole: bool,
}

/// Begins a standby over devices, follows the rest of a log while it is disturbed, and crashes.
/// Whatever was acknowledged is then on the log device.
pub fn disturb<R: Threads + Wait + Sync>(
    rt: &R,
    alloc: Global,
    text: &[u8],
    disks: Disks<Disk>,
    fuses: &Fuses,
    is_new: bool,
    by: Disturbance,
) -> Result<Wreck, Trouble> {
    by.part.fail_at(fuses, by.call);
    let engine = match begin(rt, alloc, disks, is_new)? {
        Ok(engine) => engine,
        Err(disks) => {
            mend(fuses);
            return Ok(Wreck {
                disks,
                is_new,
                is_whole: false,
            });
        }
    };
    let (engine, is_whole) = session(rt, alloc, text, engine, by)?;
    let acknowledged = engine.status().acknowledged.0;
    let (disks, _) = engine.crash(rt, by.picks);
    mend(fuses);
    let mut disks = disks;
    let held = blocks_of(alloc, &mut disks.log, acknowledged)?;
    let acknowledged = acknowledged as usize;
    if held.as_slice().get(..acknowledged) != text.get(..acknowledged) {
        return Err(Trouble::Lost("an acknowledged byte"));
    }
    Ok(Wreck {
        disks,
        is_new: false,
        is_whole,
    })
}

/// Recovers and follows a session: the engine, and whether it came to the end of the log.
fn session<R: Threads + Wait + Sync>(
    rt: &R,
    alloc: Global,
    text: &[u8],
    engine: Engine<Disk>,
    by: Disturbance,
) -> Result<(Engine<Disk>, bool), Trouble> {
    let mut engine = engine;
    if let Err(fault) = recover(rt, &mut engine) {
        return match fault.number() {
            30 => Ok((engine, false)),
            32 => Err(Trouble::Memory),
            _ => Err(Trouble::Lost("a recovery is refused by another fault than 30")),
        };
    }
    let sent = frames(alloc, text, engine.status().end.0)?;
    let stream = sent.as_slice().get(..by.stream).unwrap_or(sent.as_slice());
    let (engine, told, fault) = follow_once_started(rt, alloc, engine, by.workers, stream)?;
    let status = engine.status();
    if last_answer(told.as_slice()) > status.acknowledged.0 {
        return Err(Trouble::Lost("an answer is not acknowledged"));
    }
    if fault == 0 {
        let is_whole = status.end.0 == text.len() as u64 && is_quiet(&engine);
        return if is_whole {
            Ok((engine, true))
        } else {
            Err(Trouble::Lost("a whole session has not come to the end"))
        };
    }
    if fault == 32 {
        return Err(Trouble::Memory);
    }
    if !ENDINGS.contains(&fault) {
        return Err(Trouble::Lost("a session is refused by another fault than 30 and 43"));
    }
    Ok((engine, false))
}

/// Follows a stream: the engine, what was answered, and the number of the fault that ended it, 0 for none.
/// Where its threads do not start in time, as on a busy machine, nothing was read or written, and it is
/// tried again.
fn follow_once_started<R: Threads + Wait + Sync>(
    rt: &R,
    alloc: Global,
    engine: Engine<Disk>,
    workers: usize,
    stream: &[u8],
) -> Result<(Engine<Disk>, Vec<u8>, u32), Trouble> {
    let mut engine = engine;
    for _ in 0..TRIES {
        let followed = follow_with(rt, alloc, engine, workers, stream, Vec::new(alloc));
        let Followed {
            engine: left,
            reader: _,
            writer: told,
            ended,
        } = followed;
        engine = left;
        match ended {
            Some(Ok(())) => return Ok((engine, told, 0)),
            Some(Err(fault)) => return Ok((engine, told, fault.number())),
            None => {}
        }
    }
    Err(Trouble::Lost("the threads of a session never start"))
}

/// The last acknowledged offset that was told; 0: none was. An answer has a tag and eight bytes, and
/// the request in front has 29.
pub fn last_answer(told: &[u8]) -> u64 {
    match told {
        [_, .., 0x41, a, b, c, d, e, f, g, h] if told.len() > 29 => {
            u64::from_be_bytes([*a, *b, *c, *d, *e, *f, *g, *h])
        }
        _ => 0,
    }
}

/// Goes on where a session was disturbed, in one thread and with nothing in its way: whether the
/// standby then holds what that of one undisturbed session does.
pub fn finish<R: Threads + Wait + Sync>(
    rt: &R,
    alloc: Global,
    text: &[u8],
    wreck: Wreck,
    whole: &Left,
) -> Result<(), Trouble> {
    let Wreck {
        disks,
        is_new,
        is_whole: _,
    } = wreck;
    let by = Disturbance {
        part: Part::Log,
        call: u64::MAX,
        workers: 0,
        stream: usize::MAX,
        picks: &[],
    };
    let Ok(engine) = begin(rt, alloc, disks, is_new)? else {
        return Err(Trouble::Lost("a mended device fails"));
    };
    let (engine, is_whole) = session(rt, alloc, text, engine, by)?;
    let left = Left::of(rt, alloc, engine)?;
    if !is_whole || !left.is_same(whole) {
        return Err(Trouble::Lost("the standby holds something else than an undisturbed one"));
    }
    Ok(())
}
