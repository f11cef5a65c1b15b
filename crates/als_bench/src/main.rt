//! Measures what the standby does with a primary's log: whole feeds, and all that follows them.
#![tactic(auto)]

// The devices of a standby.
mod devices;
// Whole feeds.
mod fed;
// What following costs, part by part.
mod split;
// What is done for a frame.
mod turn;
// A log that is followed.
mod followed;
// A standby whose events are timed.
mod timed;
// A log that is followed over the network.
mod shipped;
// When the answers of a session were written.
mod answers;
// A whole session.
mod session;
// Whole sessions with workers beside the follower.
mod beside;
// Feeds that are redone, and whose pages are stored.
mod redone;
// Redo by leases.
mod leased;
// Redo by workers.
mod worked;
// Checkpoints.
mod checkpointed;
// Takeovers.
mod taken_over;
// Restarts.
mod restarted;
// Jobs, and how their figures are printed.
mod measure;

use measure::measure_all;
use std::{env, io};

/// Tells the figures for a log of so many MB, the first word of the command line; in the folder
/// that the second one names, if there is one, it makes the device files of a standby. With no
/// word, how to ask.
fn main(rt: HostRuntime) -> io::Result<()> {
    let mut words = env::args(&rt)?.skip(1);
    let megabytes = words.next().and_then(|word| word.parse::<usize>().ok());
    let folder = words.next();
    match megabytes {
        Some(megabytes) if megabytes <= 1024 => measure_all(&rt, megabytes, folder.as_deref()),
        _ => println!(rt;
            "als_bench MB [FOLDER]: records and MB a second for a log of so many MB, at most 1024; over device files in the folder too"
        ),
    }
}
