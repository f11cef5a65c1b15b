//! A storm over writers of transactions, from a seed: each device call fails in turn, the power is cut at
//! each step in turn, and what a crash leaves has what was forced and nothing else.
//!
//! 1. A writer is begun over new devices and writes random transactions, most of which are forced. Some
//!    prepare, and a later decision commits them or rolls them back.
//! 2. It is stopped once: by a device, by the power, or by an allocation that fails.
//! 3. Its devices are opened as the crash leaves them, recovered and tidied.
//! 4. The log, the keys and the pages are compared with a plain list of what was answered, and it goes on.
#![tactic(auto)]

// Why a storm ends.
mod trouble;
// Why a writer goes no further.
mod stop;
// Devices that can fail.
mod failing;
// Where the devices of a writer are.
mod media;
// The steps of a writer.
mod steps;
// What each key has.
mod values;
// What crashes cut.
mod cuts;
// What a writer was answered.
mod book;
mod deed;
// Random transactions.
mod transfers;
// A transaction written.
mod putting;
// One in doubt decided.
mod deciding;
// Writers that are stopped, and go on.
mod writers;
// The storms, as they are asked for.
mod written;

use std::sync::Wait;
use std::{env, io};
use trouble::Trouble;

const WORDS: &str = "als_storm_writers storm|once SEED [FOLDER]";

/// Makes the storm that the words name, and prints what it met. With no words it prints how to ask,
/// and makes a small one.
fn main(rt: HostRuntime) -> io::Result<()> {
    let mut words = env::args(&rt)?.skip(1);
    let kind = words.next();
    let seed = words.next().and_then(|word| word.parse::<u64>().ok());
    let folder = words.next();
    let ended = match (kind.as_deref(), seed) {
        (Some("storm"), Some(seed)) => written::storm(&rt, seed, folder.as_deref()),
        (Some("once"), Some(seed)) => written::once(&rt, seed, folder.as_deref()),
        _ => help(&rt),
    };
    match ended {
        Ok(()) => Ok(()),
        Err(Trouble::Lost(what)) => println!(rt; "LOST: {what}"),
        Err(Trouble::Memory) => Err(io::Error::from(io::ErrorKind::OutOfMemory)),
        Err(Trouble::Stream(e)) => Err(e),
    }
}

/// How to ask, and a small storm.
fn help<R: Print + AllocGlobal + Wait>(rt: &R) -> Result<(), Trouble> {
    println!(rt; "{WORDS}")?;
    written::small(rt)
}
