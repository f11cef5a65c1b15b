//! Measures what a writer's transactions cost in memory, beside a feed of the same bytes.
#![tactic(auto)]

// A device whose syncs are counted.
mod counted;
// Engines in memory.
mod devices;
// Feeds.
mod fed;
// Random transactions.
mod rolled;
// The figures.
mod writes;

use std::{env, io};
use writes::write_sizes;

/// Prints the figures where the first word of the command line is `run`; else how to ask.
fn main(rt: HostRuntime) -> io::Result<()> {
    let mut words = env::args(&rt)?.skip(1);
    if words.next().as_deref() == Some("run") {
        return write_sizes(&rt);
    }
    println!(rt;
        "als_bench_writes run: sets a second of transactions in memory, and of a feed of their bytes"
    )
}
