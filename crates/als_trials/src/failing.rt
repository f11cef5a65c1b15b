use crate::driver::Driver;
use crate::held::{WholeLog, acknowledged_by};
use crate::scripts::say_from;
use crate::trial::Trial;
use crate::trouble::Trouble;
use std::alloc::Global;
use std::sync::Wait;

const DEVICES: [&str; 3] = ["log", "control", "pages"];

/// No trial calls a device so often.
const CALL_LIMIT: u64 = 1_000;

/// Each event but `give`, for which a slot needs a lease.
const EVENTS: [&str; 18] = [
    "feed 16 16",
    "resync",
    "lend 0 0",
    "recall 0",
    "flush 0",
    "sync-pages",
    "log-write",
    "log-sync",
    "mark-write",
    "ctl-sync",
    "ckpt-begin",
    "ckpt-block",
    "ckpt-publish",
    "publish",
    "ready",
    "seal",
    "undo",
    "finish",
];

/// Each call of each device fails in turn, with two crashes each: how many calls these are.
pub fn fail_each<R: Wait>(alloc: Global, rt: &R, trial: &Trial) -> Result<u64, Trouble> {
    let whole = WholeLog::of(alloc, rt, trial)?;
    let mut count = 0u64;
    for device in DEVICES {
        for call in 1..CALL_LIMIT {
            let fail = format!(in alloc; "fail {device} {call}")?;
            let is_met = fail_one(alloc, rt, trial, &whole, fail.as_str(), "crash old")?
                && fail_one(alloc, rt, trial, &whole, fail.as_str(), "crash new")?;
            if !is_met {
                break;
            }
            count = count.saturating_add(1);
        }
    }
    Ok(count)
}

/// Runs a trial in which a call of a device fails: whether a line met it.
fn fail_one<R: Wait>(
    alloc: Global,
    rt: &R,
    trial: &Trial,
    whole: &WholeLog,
    fail: &str,
    crash: &str,
) -> Result<bool, Trouble> {
    let mut driver = Driver::begin(alloc, rt, trial.world()?)?;
    driver.say(fail)?;
    let met = say_until_met(alloc, &mut driver, trial, whole, crash);
    driver.end();
    met
}

/// Says the lines of a trial up to one that is answered by 30, and then goes on: whether one was.
fn say_until_met<R: Wait>(
    alloc: Global,
    driver: &mut Driver<R>,
    trial: &Trial,
    whole: &WholeLog,
    crash: &str,
) -> Result<bool, Trouble> {
    let mut acknowledged = 16;
    for (index, said) in trial.said.iter().enumerate().skip(1) {
        let output = driver.say(said.line)?;
        if said.is_printed(output) {
            acknowledged = acknowledged_by(output).unwrap_or(acknowledged);
        } else if output.starts_with("refused 30 Device") {
            go_on(alloc, driver, trial, index, whole, crash, acknowledged)?;
            return Ok(true);
        } else {
            return Err(Trouble::at(alloc, said.line, output));
        }
    }
    Ok(false)
}

/// Goes on where the line of this index was answered by 30. A standby that has stopped, or is down,
/// refuses each event until a crash, after which it holds what was acknowledged. Where a read
/// failed, nothing has changed: the line and all behind it print what the trial says.
pub fn go_on<R: Wait>(
    alloc: Global,
    driver: &mut Driver<R>,
    trial: &Trial,
    index: usize,
    whole: &WholeLog,
    crash: &str,
    acknowledged: u64,
) -> Result<(), Trouble> {
    let status = driver.say("show status")?;
    if status.starts_with("state=Stopped ") || status == "refused 31 Stopped\n" {
        refuses_all(alloc, driver)?;
        return whole.survives(alloc, driver, crash, acknowledged);
    }
    say_from(alloc, driver, trial, index)
}

/// Each event is refused by 31, and none of them changes anything.
fn refuses_all<R: Wait>(alloc: Global, driver: &mut Driver<R>) -> Result<(), Trouble> {
    let before = String::from_str(alloc, driver.say("show status")?)?;
    for event in EVENTS {
        let output = driver.say(event)?;
        if !output.starts_with("refused 31 Stopped") {
            return Err(Trouble::at(alloc, event, output));
        }
    }
    let after = driver.say("show status")?;
    if after != before.as_str() {
        return Err(Trouble::at(alloc, "after all events", after));
    }
    Ok(())
}
