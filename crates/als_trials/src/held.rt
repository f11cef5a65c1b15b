use crate::driver::Driver;
use crate::scripts::say_from;
use crate::trial::Trial;
use crate::trouble::Trouble;
use std::alloc::Global;
use std::sync::Wait;

/// The log that a trial leaves where nothing disturbs it.
#[derive(Drop)]
pub struct WholeLog {
    /// Its records, a line each.
    lines: String,
    /// The offset after the last.
    end: u64,
}

impl WholeLog {
    /// The log of a trial.
    pub fn of<R: Wait>(alloc: Global, rt: &R, trial: &Trial) -> Result<WholeLog, Trouble> {
        let mut driver = Driver::begin(alloc, rt, trial.world()?)?;
        let whole = WholeLog::left(alloc, &mut driver, trial);
        driver.end();
        whole
    }

    /// The log that this standby holds at the trial's end.
    fn left<R: Wait>(
        alloc: Global,
        driver: &mut Driver<R>,
        trial: &Trial,
    ) -> Result<WholeLog, Trouble> {
        say_from(alloc, driver, trial, 1)?;
        let end = number(driver.say("show status")?, "end=").ok_or(Trouble::NoTrial)?;
        let lines = String::from_str(alloc, driver.say("show log 16")?)?;
        Ok(WholeLog { lines, end })
    }

    /// Whether these lines are those of a front of it that ends there.
    fn has_front(&self, lines: &str, end: u64) -> bool {
        if lines == "none\n" {
            return end == 16;
        }
        match self.lines.as_str().strip_prefix(lines) {
            Some("") => end == self.end,
            Some(rest) => number(rest, "") == Some(end),
            None => false,
        }
    }

    /// Crashes, and looks whether what is then held is a front of this log that has each
    /// acknowledged byte.
    pub fn survives<R: Wait>(
        &self,
        alloc: Global,
        driver: &mut Driver<R>,
        crash: &str,
        acknowledged: u64,
    ) -> Result<(), Trouble> {
        let output = driver.say(crash)?;
        let Some(end) = acknowledged_by(output) else {
            return Err(Trouble::at(alloc, crash, output));
        };
        let lines = driver.say("show log 16")?;
        if end < acknowledged || !self.has_front(lines, end) {
            return Err(Trouble::at(alloc, "the held log", lines));
        }
        Ok(())
    }
}

/// The number behind a label in the first line of an output.
pub fn number(output: &str, label: &str) -> Option<u64> {
    let (_, rest) = output.lines().next()?.split_once(label)?;
    rest.split(' ').next()?.parse().ok()
}

/// The acknowledged offset that an output tells of.
pub fn acknowledged_by(output: &str) -> Option<u64> {
    if output.starts_with("ok ack=") {
        return number(output, "ack=");
    }
    if output.starts_with("ok end=") {
        return number(output, "end=");
    }
    None
}
