use crate::disturbed::{Disturbance, Wreck, disturb, finish};
use crate::logs::{FRAME, log};
use crate::sessions::Left;
use crate::standbys::{Disk, Fuses, NEVER, PARTS, Part, failing};
use crate::trouble::Trouble;
use als_engine::Disks;
use std::alloc::Global;
use std::sync::Wait;
use std::thread::Threads;

/// The log has at least this many bytes: 6 frames.
const LENGTH: usize = 6 * FRAME;

/// No session calls a device so often.
const CALL_LIMIT: u64 = 100_000;

/// Beyond the last call of a session. With workers a failed read may be passed over: it is tried again.
const UNMET: u64 = 50;

/// The last candidate of each of so many blocks.
const NEWEST: [u8; 512] = [255; 512];

/// Each device call of a whole session fails in turn, of a new standby and of one that was stopped
/// half way, and a crash leaves the oldest and the newest. Prints how many sessions a call ended.
pub fn storm<R: Print + AllocGlobal + Threads + Wait + Sync>(
    rt: &R,
    workers: usize,
) -> Result<(), Trouble> {
    let alloc = rt.alloc();
    let text = log(alloc, LENGTH)?;
    let whole = whole(rt, alloc, text.as_slice())?;
    for half in [0, 3 * FRAME] {
        for part in PARTS {
            let count = fail_each(rt, alloc, text.as_slice(), half, part, workers, &whole)?;
            let name = part.name();
            println!(rt; "workers={workers} from={half} device={name} ended={count}")?;
        }
    }
    Ok(())
}

/// What an undisturbed session leaves.
pub fn whole<R: Threads + Wait + Sync>(
    rt: &R,
    alloc: Global,
    text: &[u8],
) -> Result<Left, Trouble> {
    let (disks, fuses) = failing(alloc)?;
    let wreck = undisturbed(rt, alloc, text, disks, &fuses, usize::MAX)?;
    let mut disks = wreck.disks;
    Left::on(alloc, &mut disks)
}

/// A session of which so many bytes of the stream come, in one thread.
fn undisturbed<R: Threads + Wait + Sync>(
    rt: &R,
    alloc: Global,
    text: &[u8],
    disks: Disks<Disk>,
    fuses: &Fuses,
    stream: usize,
) -> Result<Wreck, Trouble> {
    let by = Disturbance {
        part: Part::Log,
        call: NEVER,
        workers: 0,
        stream,
        picks: &[],
    };
    disturb(rt, alloc, text, disks, fuses, true, by)
}

/// Each call of a device fails in turn: how many sessions that ends. It is over where so many calls
/// in a row end none.
fn fail_each<R: Threads + Wait + Sync>(
    rt: &R,
    alloc: Global,
    text: &[u8],
    half: usize,
    part: Part,
    workers: usize,
    whole: &Left,
) -> Result<u64, Trouble> {
    let mut met = 0u64;
    let mut unmet = 0u64;
    for call in 1..CALL_LIMIT {
        unmet = unmet.saturating_add(1);
        for picks in [&NEWEST[..0], &NEWEST[..]] {
            let by = Disturbance {
                part,
                call,
                workers,
                stream: usize::MAX,
                picks,
            };
            if fail_one(rt, alloc, text, half, by, whole)? {
                met = met.saturating_add(1);
                unmet = 0;
            }
        }
        if unmet >= UNMET {
            break;
        }
    }
    Ok(met)
}

/// A session of which a call fails, and the one that goes on behind it: whether the call was met.
fn fail_one<R: Threads + Wait + Sync>(
    rt: &R,
    alloc: Global,
    text: &[u8],
    half: usize,
    by: Disturbance,
    whole: &Left,
) -> Result<bool, Trouble> {
    let (disks, fuses) = failing(alloc)?;
    let (disks, is_new) = if half > 0 {
        let wreck = undisturbed(rt, alloc, text, disks, &fuses, half)?;
        (wreck.disks, false)
    } else {
        (disks, true)
    };
    let wreck = disturb(rt, alloc, text, disks, &fuses, is_new, by)?;
    let is_met = !wreck.is_whole;
    finish(rt, alloc, text, wreck, whole)?;
    Ok(is_met)
}
