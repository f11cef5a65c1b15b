//! Measures parts of the standby by themselves: what is done with a log's bytes before they are held
//! (decoding, judging, receiving), what readers see (committed reads, the publishing of commits, and
//! the memory that the published list takes), undo along the chains of a log, and the memory of a
//! transaction table.
#![tactic(auto)]

// The jobs over a log.
mod reading;
// What of them is measured.
mod measure;
// Keys and values that come again in each run.
mod drawn;
// The transactions of a primary.
mod written;
// A published log in which each key has a value.
mod filled;
// Threads that read beside a publisher.
mod beside;
// Reads.
mod reads;
// Publishes.
mod publishes;
// The memory of this process.
mod resident;
// The memory of a long session.
mod sessions;
// Undo along the chains of a log.
mod undone;
// The memory of a transaction table.
mod tables;

use measure::measure_all;
use publishes::publish_all;
use reads::read_all;
use sessions::follow_all;
use std::{env, io};
use tables::note_all;
use undone::undo_all;

/// Prints the figures of the part that the first word names, over as much as the second one says.
/// With other words, how to ask.
fn main(rt: HostRuntime) -> io::Result<()> {
    let mut words = env::args(&rt)?;
    let part = words.nth(1);
    let amount = words.next().and_then(|word| word.parse::<u32>().ok());
    match (part.as_deref(), amount) {
        (Some("log"), Some(megabytes)) if megabytes <= 1024 => {
            measure_all(&rt, megabytes as usize)
        }
        (Some("view"), Some(seconds)) if seconds <= 60 => {
            read_all(&rt, seconds)?;
            publish_all(&rt)
        }
        (Some("memory"), None) => follow_all(&rt),
        (Some("undo"), None) => undo_all(&rt),
        (Some("table"), None) => note_all(&rt),
        _ => tell_how(&rt),
    }
}

/// Prints how to ask.
fn tell_how<R: Print>(rt: &R) -> io::Result<()> {
    println!(rt;
        "als_bench_parts log MB: records and MB a second for decoding and judging logs of so many MB, at most 1024"
    )?;
    println!(rt;
        "als_bench_parts view SECONDS: committed reads by 1, 2 and 4 threads, each figure taking so many seconds, at most 60, and how long a publish takes"
    )?;
    println!(rt;
        "als_bench_parts memory: what the published list takes behind 16, 32 and 64 MB of log"
    )?;
    println!(rt; "als_bench_parts undo: the records that undo 1, 16 and 256 losers, a second")?;
    println!(rt;
        "als_bench_parts table: what a transaction table takes behind 1, 1,000 and 1,000,000 updates of one open transaction"
    )
}
