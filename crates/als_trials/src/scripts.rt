use crate::driver::Driver;
use crate::trial::Trial;
use crate::trouble::Trouble;
use std::alloc::Global;
use std::sync::Wait;

/// Runs a trial: each line prints what the file says.
pub fn run<R: Wait>(alloc: Global, rt: &R, trial: &Trial) -> Result<(), Trouble> {
    let mut driver = Driver::begin(alloc, rt, trial.world()?)?;
    let ended = say_from(alloc, &mut driver, trial, 1);
    driver.end();
    ended
}

/// Says the lines from this one on: each prints what the trial says.
pub fn say_from<R: Wait>(
    alloc: Global,
    driver: &mut Driver<R>,
    trial: &Trial,
    from: usize,
) -> Result<(), Trouble> {
    for said in trial.said.iter().skip(from) {
        let output = driver.say(said.line)?;
        if !said.is_printed(output) {
            return Err(Trouble::at(alloc, said.line, output));
        }
    }
    Ok(())
}
