use crate::trial::Trial;
use crate::trouble::Trouble;
use crate::{blocks, failing, growths, scripts};
use std::alloc::Global;
use std::fs::{self, File};
use std::io;
use std::rt::Files;
use std::sync::Wait;

/// What is done with each trial of a file: the file's first line.
#[derive(Clone, Copy)]
enum Rule {
    /// It is run as it stands.
    Script,
    /// Each call of each device fails in turn.
    Failing,
    /// An allocation may be refused.
    Growths,
    /// It lays the blocks of its devices.
    Blocks,
}

/// How a trial ended that ended well.
#[derive(Clone, Copy)]
enum Outcome {
    /// It has so many runs.
    Runs(u64),
    /// It is one run, of which a line was answered by the fault of this number, 0: none.
    Met(u32),
}

impl Rule {
    fn of(front: &str) -> Option<Rule> {
        match front.lines().next()? {
            "# script" => Some(Rule::Script),
            "# fail" => Some(Rule::Failing),
            "# growth" => Some(Rule::Growths),
            "# blocks" => Some(Rule::Blocks),
            _ => None,
        }
    }

    /// Runs a trial.
    fn run<R: Wait>(self, alloc: Global, rt: &R, trial: &Trial) -> Result<Outcome, Trouble> {
        match self {
            Rule::Script => scripts::run(alloc, rt, trial)?,
            Rule::Failing => return Ok(Outcome::Runs(failing::fail_each(alloc, rt, trial)?)),
            Rule::Growths => return Ok(Outcome::Met(growths::run(alloc, rt, trial)?)),
            Rule::Blocks => blocks::run(alloc, rt, trial)?,
        }
        Ok(Outcome::Runs(1))
    }
}

/// Runs the trials of a file, and prints how many runs these are, and each that ended otherwise.
pub fn run<R: Print + AllocGlobal + Files<File = File> + Wait>(
    rt: &R,
    name: &str,
) -> io::Result<()> {
    let text = fs::read_to_string(rt, name)?;
    let mut count = 0u64;
    let mut sections = text.as_str().split("\n== ");
    let front = sections.next().unwrap_or("");
    let Some(rule) = Rule::of(front) else {
        return println!(rt; "{name}: no file of trials");
    };
    for section in sections {
        count = count.saturating_add(run_section(rt, name, rule, front, section)?);
    }
    println!(rt; "{name}: {count} rows")
}

/// Runs one trial of a file: how many runs it is, 0 where it ended otherwise.
fn run_section<R: Print + AllocGlobal + Wait>(
    rt: &R,
    name: &str,
    rule: Rule,
    front: &str,
    section: &str,
) -> io::Result<u64> {
    let title = section.lines().next().unwrap_or("");
    let alloc = rt.alloc();
    let ended = match Trial::read(alloc, front, section) {
        Ok(trial) => rule.run(alloc, rt, &trial),
        Err(trouble) => Err(trouble),
    };
    match ended {
        Ok(Outcome::Runs(count)) => return Ok(count),
        Ok(Outcome::Met(0)) => return Ok(1),
        Ok(Outcome::Met(fault)) => {
            println!(rt; "{name}, {title}: answered by {fault}")?;
            return Ok(1);
        }
        Err(Trouble::Differs(text)) => println!(rt; "{name}, {title}: {text}")?,
        Err(Trouble::NoTrial) => println!(rt; "{name}, {title}: no trial")?,
        Err(Trouble::Memory) => return Err(io::Error::from(io::ErrorKind::OutOfMemory)),
    }
    Ok(0)
}
