//! Runs files of trials: scripts, what they print, and what has to hold where they are disturbed.
#![tactic(auto)]

// Why a trial does not end as its file says.
mod trouble;
// Lines of a script, and what they print.
mod trial;
// A standby that is told line by line.
mod driver;
// Trials that are run as they stand.
mod scripts;
// What a trial's log has to hold after a crash.
mod held;
// Trials in which each call of a device fails in turn.
mod failing;
// Trials in which an allocation may be refused.
mod growths;
// Answers of events, as text.
mod answers;
// Devices whose blocks a trial lays, and a standby over them.
mod laid;
// Standbys over such devices.
mod opened;
// Trials over devices whose blocks they lay.
mod blocks;
// The trials of a file.
mod files;

use std::{env, io};

/// Runs the files that the command line names, and tells of each how many trials it has.
fn main(rt: HostRuntime) -> io::Result<()> {
    for name in env::args(&rt)?.skip(1) {
        files::run(&rt, name.as_str())?;
    }
    Ok(())
}
