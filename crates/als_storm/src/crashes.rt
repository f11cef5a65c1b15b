use crate::devices::whole;
use crate::disturbed::{Disturbance, Wreck, disturb, finish};
use crate::logs::{FRAME, log};
use crate::sessions::Left;
use crate::standbys::{NEVER, Part, failing};
use crate::trouble::Trouble;
use als_sample_logs::Dice;
use std::alloc::Global;
use std::sync::Wait;
use std::thread::Threads;

/// The log has at least this many bytes: 20 frames.
const LENGTH: usize = 20 * FRAME;

/// A log is followed in at most so many sessions.
const SESSIONS: u32 = 1_000;

/// The picks of a crash: more blocks than that have only one candidate.
const PICKS: usize = 1_500;

/// What was met.
#[derive(Clone, Copy, Drop)]
struct Met {
    /// Crashes of sessions that did not come to the end of their log.
    crashes: u64,
    /// Logs that were followed to their end.
    logs: u64,
}

/// Follows logs with up to four workers while devices fail and streams are cut, and crashes with random
/// picks, until so many sessions were cut short. Prints what it met.
pub fn storm<R: Print + AllocGlobal + Threads + Wait + Sync>(
    rt: &R,
    count: u64,
    seed: u64,
) -> Result<(), Trouble> {
    let alloc = rt.alloc();
    let text = log(alloc, LENGTH)?;
    let whole = whole(rt, alloc, text.as_slice())?;
    let mut dice = Dice::new(seed);
    let mut met = Met {
        crashes: 0,
        logs: 0,
    };
    for _ in 0..count {
        if met.crashes >= count {
            break;
        }
        met = follow_log(rt, alloc, text.as_slice(), &mut dice, &whole, met)?;
    }
    let Met { crashes, logs } = met;
    println!(rt; "crashes={crashes} logs={logs}")?;
    Ok(())
}

/// Follows one log to its end, by sessions that are disturbed.
fn follow_log<R: Threads + Wait + Sync>(
    rt: &R,
    alloc: Global,
    text: &[u8],
    dice: &mut Dice,
    whole: &Left,
    met: Met,
) -> Result<Met, Trouble> {
    let mut met = met;
    let (disks, fuses) = failing(alloc)?;
    let mut wreck = Wreck {
        disks,
        is_new: true,
        is_whole: false,
    };
    for _ in 0..SESSIONS {
        let mut picks = [0; PICKS];
        roll_picks(dice, &mut picks);
        let by = roll(dice, &picks);
        let Wreck {
            disks,
            is_new,
            is_whole: _,
        } = wreck;
        wreck = disturb(rt, alloc, text, disks, &fuses, is_new, by)?;
        if wreck.is_whole {
            break;
        }
        met.crashes = met.crashes.saturating_add(1);
    }
    finish(rt, alloc, text, wreck, whole)?;
    met.logs = met.logs.saturating_add(1);
    Ok(met)
}

/// What disturbs the next session: a device that fails, or a stream that is cut, or both.
fn roll<'a>(dice: &mut Dice, picks: &'a [u8]) -> Disturbance<'a> {
    let part = match dice.below(3) {
        0 => Part::Log,
        1 => Part::Control,
        _ => Part::Pages,
    };
    let call = if dice.below(8) == 0 {
        NEVER
    } else {
        u64::from(dice.below(120)) + 1
    };
    let stream = if dice.below(4) == 0 {
        dice.below(LENGTH as u32) as usize
    } else {
        usize::MAX
    };
    Disturbance {
        part,
        call,
        workers: dice.below(5) as usize,
        stream,
        picks,
    }
}

/// Most picks are among the first candidates, some name the last.
fn roll_picks(dice: &mut Dice, picks: &mut [u8]) {
    for pick in picks.iter_mut() {
        *pick = if dice.below(4) == 0 {
            255
        } else {
            dice.below(4) as u8
        };
    }
}
