use crate::laid::Laid;
use crate::trial::Trial;
use crate::trouble::Trouble;
use als_script::Words;
use std::alloc::Global;
use std::sync::Wait;

/// Runs a trial over devices whose blocks it lays. Its first line is `devices B`: new devices, of
/// which the log's has B blocks.
pub fn run<R: Wait>(alloc: Global, rt: &R, trial: &Trial) -> Result<(), Trouble> {
    let mut words = Words::of(trial.world()?);
    if words.next() != Some("devices") {
        return Err(Trouble::NoTrial);
    }
    let blocks = words.number().ok_or(Trouble::NoTrial)?;
    let mut laid = Laid::blank(alloc, blocks);
    for said in trial.said.iter().skip(1) {
        let (after, answer) = laid.take(alloc, rt, said.line)?;
        laid = after;
        if !said.is_printed(answer.as_str()) {
            laid.end(rt);
            return Err(Trouble::at(alloc, said.line, answer.as_str()));
        }
    }
    laid.end(rt);
    Ok(())
}
