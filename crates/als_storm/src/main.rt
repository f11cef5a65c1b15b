//! Storms over standbys in memory, from a seed: sessions of hostile frames, crashes with random picks
//! of sessions with workers, and sessions of which each device call fails in turn.
#![tactic(auto)]

// Why a storm ends.
mod trouble;
// The logs, and the frames in which they are sent.
mod logs;
// Standbys over devices that can fail.
mod standbys;
// A session by so many workers, and what it leaves.
mod sessions;
// Random frames.
mod stream;
// Sessions of hostile frames.
mod hostile;
// A session that is disturbed, what a crash leaves of it, and the rest of the log.
mod disturbed;
// Crashes with random picks.
mod crashes;
// Each device call of a session fails in turn.
mod devices;

use std::{env, io};
use trouble::Trouble;

const WORDS: &str = "als_storm sessions|crashes COUNT SEED, or als_storm devices WORKERS";

/// Makes the storm that the words name, and prints what it met.
fn main(rt: HostRuntime) -> io::Result<()> {
    let mut words = env::args(&rt)?.skip(1);
    let kind = words.next();
    let count = words.next().and_then(|word| word.parse::<u64>().ok());
    let seed = words.next().and_then(|word| word.parse::<u64>().ok());
    let ended = match (kind.as_deref(), count, seed) {
        (Some("sessions"), Some(count), Some(seed)) => hostile::storm(&rt, count, seed),
        (Some("crashes"), Some(count), Some(seed)) => crashes::storm(&rt, count, seed),
        (Some("devices"), Some(workers), None) => devices::storm(&rt, workers as usize),
        _ => return println!(rt; "{WORDS}"),
    };
    match ended {
        Ok(()) => Ok(()),
        Err(Trouble::Lost(what)) => println!(rt; "LOST: {what}"),
        Err(Trouble::Memory) => Err(io::Error::from(io::ErrorKind::OutOfMemory)),
        Err(Trouble::Stream(e)) => Err(e),
    }
}
