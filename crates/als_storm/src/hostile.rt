use crate::disturbed::last_answer;
use crate::logs::log;
use crate::sessions::blocks_of;
use crate::standbys::{CONFIG, Disk, Fuses, failing};
use crate::stream::roll_stream;
use crate::trouble::Trouble;
use als_engine::{Engine, Events, State};
use als_record::LogHeader;
use als_sample_logs::Dice;
use als_ship::{Follower, force};
use std::alloc::Global;
use std::sync::Wait;

/// The log of which the true frames are.
const LENGTH: usize = 4096;

/// No stream of random frames has more bytes.
const STREAM: usize = 100_000;

/// The numbers of faults, 0 for none.
const FAULTS: usize = 64;

/// Faults by which such a session may end: those of records, states and limits, of frames and
/// of histories.
const ENDINGS: [u32; 26] = [
    0, 2, 3, 4, 5, 6, 7, 8, 9, 10, 11, 12, 13, 14, 15, 16, 20, 21, 29, 31, 36, 40, 41, 42, 43, 48,
];

/// Follows so many sessions of random frames. Prints how many ended by which fault.
pub fn storm<R: Print + AllocGlobal + Wait>(rt: &R, count: u64, seed: u64) -> Result<(), Trouble> {
    let alloc = rt.alloc();
    let text = log(alloc, LENGTH)?;
    let mut dice = Dice::new(seed);
    let mut met = [0u64; FAULTS];
    // What is allocated from here on is the standby's and the follower's.
    let mut stream = Vec::with_capacity(alloc, STREAM)?;
    let mut told = Vec::new(alloc);
    for _ in 0..count {
        stream.clear();
        told.clear();
        let fault = session(
            rt,
            alloc,
            text.as_slice(),
            &mut dice,
            &mut stream,
            &mut told,
        )?;
        if let Some(times) = met.get_mut(fault as usize) {
            *times = times.saturating_add(1);
        }
    }
    for (fault, times) in met.iter().enumerate() {
        if *times > 0 {
            println!(rt; "ended by {fault}: {times}")?;
        }
    }
    Ok(println!(rt; "sessions={count}")?)
}

/// One session, over a standby in a random state: the number of the fault that ends it.
fn session<R: Wait>(
    rt: &R,
    alloc: Global,
    text: &[u8],
    dice: &mut Dice,
    stream: &mut Vec<u8>,
    told: &mut Vec<u8>,
) -> Result<u32, Trouble> {
    let mut engine = standby(rt, alloc, text, dice)?;
    let before = engine.status();
    roll_stream(dice, text, before.end.0, stream)?;
    let mut reader = stream.as_slice();
    let header = LogHeader {
        pages: CONFIG.pages as u32,
    };
    let ended = Follower::new(header).follow(alloc, &mut engine, &mut reader, told);
    let fault = match ended {
        Ok(()) => 0,
        Err(fault) => fault.number(),
    };
    if fault == 32 {
        return Err(Trouble::Memory);
    }
    let after = engine.status();
    let is_right = ENDINGS.contains(&fault)
        && after.end >= before.end
        && after.acknowledged >= before.acknowledged
        && last_answer(told.as_slice()) <= after.acknowledged.0;
    if !is_right {
        return Err(Trouble::Lost("a session ends otherwise than it may"));
    }
    let is_dropped = after.partial == 0 || after.state == State::Stopped;
    if (fault == 41 || fault == 43) && !is_dropped {
        return Err(Trouble::Lost("a partial record is kept"));
    }
    let (disks, _) = engine.crash(rt, &[]);
    let mut disks = disks;
    let acknowledged = before.acknowledged.0;
    let held = blocks_of(alloc, &mut disks.log, acknowledged)?;
    let acknowledged = acknowledged as usize;
    if held.as_slice().get(..acknowledged) != text.get(..acknowledged) {
        return Err(Trouble::Lost("an acknowledged byte"));
    }
    Ok(fault)
}

/// A standby in a random state.
fn standby<R: Wait>(
    rt: &R,
    alloc: Global,
    text: &[u8],
    dice: &mut Dice,
) -> Result<Engine<Disk>, Trouble> {
    let (disks, fuses) = failing(alloc)?;
    let Ok((engine, _)) = Engine::format(alloc, rt, disks, CONFIG) else {
        return Err(Trouble::Memory);
    };
    let mut engine = engine;
    let to = 16 + dice.below(LENGTH as u32) as usize;
    let _ = engine.feed(text.get(16..to).unwrap_or(&[]));
    if dice.below(2) == 0 {
        let _ = force(&mut engine);
    }
    match dice.below(8) {
        0 => disturb_feed(&mut engine),
        1 => return reopened(rt, alloc, engine),
        2 => seal(&mut engine),
        3 => stop(&mut engine, &fuses),
        _ => {}
    }
    Ok(engine)
}

/// Feeds what is no record.
fn disturb_feed(engine: &mut Engine<Disk>) {
    let _ = engine.feed(&[255; 64]);
}

/// Seals what is held.
fn seal(engine: &mut Engine<Disk>) {
    let _ = force(engine);
    let _ = engine.seal();
}

/// Stops it by a write that fails.
fn stop(engine: &mut Engine<Disk>, fuses: &Fuses) {
    fuses.control.fail_at(1);
    let _ = engine.ctl_sync();
}

/// What a crash leaves of it, opened.
fn reopened<R: Wait>(rt: &R, alloc: Global, engine: Engine<Disk>) -> Result<Engine<Disk>, Trouble> {
    let (disks, _) = engine.crash(rt, &[]);
    match Engine::open(alloc, rt, disks, CONFIG) {
        Ok((engine, _)) => Ok(engine),
        Err(_) => Err(Trouble::Memory),
    }
}
