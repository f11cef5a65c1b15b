use crate::driver::Driver;
use crate::failing::go_on;
use crate::held::{WholeLog, acknowledged_by, number};
use crate::trial::{Said, Trial};
use crate::trouble::Trouble;
use std::alloc::Global;
use std::sync::Wait;

/// Lines that make more than one event.
const COMBINED: [&str; 5] = ["force", "drain", "takeover", "crash old", "crash new"];

/// Runs a trial of which one allocation may be refused, and once more where it was one of the trial
/// itself. Answers the number of the fault that a line was answered by, 0 where none was.
pub fn run<R: Wait>(alloc: Global, rt: &R, trial: &Trial) -> Result<u32, Trouble> {
    match run_once(alloc, rt, trial) {
        Err(Trouble::Memory) => run_once(alloc, rt, trial),
        ended => ended,
    }
}

/// Runs it once.
fn run_once<R: Wait>(alloc: Global, rt: &R, trial: &Trial) -> Result<u32, Trouble> {
    let mut driver = Driver::begin(alloc, rt, trial.world()?)?;
    let met = say_all(alloc, rt, &mut driver, trial);
    driver.end();
    met
}

/// Says the lines of a trial. A line that is answered by 32 is said again, and one that is answered by
/// 30, where a device had no memory for a block, ends the trial.
fn say_all<R: Wait>(
    alloc: Global,
    rt: &R,
    driver: &mut Driver<R>,
    trial: &Trial,
) -> Result<u32, Trouble> {
    let mut acknowledged = 16;
    let mut met = 0;
    for (index, said) in trial.said.iter().enumerate().skip(1) {
        let before = seen(alloc, driver)?;
        let output = driver.say(said.line)?;
        if said.is_printed(output) {
            acknowledged = acknowledged_by(output).unwrap_or(acknowledged);
        } else if output.starts_with("refused 32 Memory") {
            let refusal = String::from_str(alloc, output)?;
            say_again(alloc, driver, said, before.as_str(), refusal.as_str())?;
            met = 32;
        } else if output.starts_with("refused 30 Device") {
            let whole = WholeLog::of(alloc, rt, trial)?;
            go_on(
                alloc,
                driver,
                trial,
                index,
                &whole,
                "crash old",
                acknowledged,
            )?;
            return Ok(30);
        } else {
            return Err(Trouble::at(alloc, said.line, output));
        }
    }
    Ok(met)
}

/// What is seen of a standby: its status and its tables.
fn seen<R: Wait>(alloc: Global, driver: &mut Driver<R>) -> Result<String, Trouble> {
    let mut seen = String::from_str(alloc, driver.say("show status")?)?;
    seen.push_str(driver.say("show table")?)?;
    seen.push_str(driver.say("show dirty")?)?;
    Ok(seen)
}

/// Says a line again that was answered by 32. Of a feed the whole records in front are held and the
/// rest is fed; another event has changed nothing.
fn say_again<R: Wait>(
    alloc: Global,
    driver: &mut Driver<R>,
    said: &Said,
    before: &str,
    refusal: &str,
) -> Result<(), Trouble> {
    if said.line.starts_with("feed ") {
        return feed_again(alloc, driver, said, refusal);
    }
    if COMBINED.contains(&said.line) {
        empty_slot(driver)?;
    } else {
        let after = seen(alloc, driver)?;
        if after.as_str() != before {
            return Err(Trouble::at(alloc, said.line, after.as_str()));
        }
    }
    let output = driver.say(said.line)?;
    if !said.is_printed(output) {
        return Err(Trouble::at(alloc, said.line, output));
    }
    Ok(())
}

/// Redoes and gives back a lease that a drain has left in its slot, where the reply of a step over it
/// had no memory.
fn empty_slot<R: Wait>(driver: &mut Driver<R>) -> Result<(), Trouble> {
    // A lease has at most 64 changes.
    for _ in 0..64 {
        if !driver.say("redo 0")?.starts_with("ok") {
            break;
        }
    }
    driver.say("give 0")?;
    Ok(())
}

/// Feeds what a refused feed has not taken. Its numbers and those of the rest are together those of
/// the whole one.
fn feed_again<R: Wait>(
    alloc: Global,
    driver: &mut Driver<R>,
    said: &Said,
    refusal: &str,
) -> Result<(), Trouble> {
    let wanted = said.printed.first().copied().unwrap_or("");
    let end = number(refusal, "end=").ok_or(Trouble::NoTrial)?;
    let (_, to) = said.line.rsplit_once(' ').ok_or(Trouble::NoTrial)?;
    let line = format!(in alloc; "feed {end} {to}")?;
    let output = driver.say(line.as_str())?;
    let is_whole = output.starts_with("ok ")
        && number(output, "end=") == number(wanted, "end=")
        && sum(refusal, output, "taken=") == number(wanted, "taken=")
        && sum(refusal, output, "records=") == number(wanted, "records=");
    if is_whole {
        Ok(())
    } else {
        Err(Trouble::at(alloc, line.as_str(), output))
    }
}

fn sum(one: &str, other: &str, label: &str) -> Option<u64> {
    number(one, label)?.checked_add(number(other, label)?)
}
