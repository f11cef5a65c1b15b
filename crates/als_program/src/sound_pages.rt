use crate::redo_lines::RedoLines;
use crate::refusal::Refusal;
use als_fault::FaultKind;
use als_inspect::{check_pages, is_following};
use std::fs::File;
use std::io::Write;
use std::rt::Files;
use std::sync::Wait;
use std::time::Clock;

/// Refuses a folder whose files are damaged, before anything is written, by the first fault that `als verify`
/// names too. Refuses too where the check has no memory, or another program has the folder or one of its files.
/// A file that fails, or is not there, the command itself reports. Behind it the command reads the log once more.
pub fn check_sound<R: AllocGlobal + Files<File = File> + Wait, W: Write, C: Clock>(
    rt: &R,
    dir: &str,
    lines: &mut RedoLines<'_, W, C>,
) -> Result<(), Refusal> {
    if let Err(fault) = check_pages(rt, dir, lines) {
        let refusal = Refusal::from(fault);
        if ends_check(refusal) {
            return Err(refusal);
        }
    }
    lines.reads_again(dir);
    Ok(())
}

/// The same of a folder that a standby is to follow with. One that was taken over the standby itself refuses:
/// its log is not judged for it.
pub fn check_followable<R: AllocGlobal + Files<File = File> + Wait, W: Write, C: Clock>(
    rt: &R,
    dir: &str,
    lines: &mut RedoLines<'_, W, C>,
) -> Result<(), Refusal> {
    match is_following(rt, dir) {
        Ok(false) => Ok(()),
        Ok(true) | Err(_) => check_sound(rt, dir, lines),
    }
}

/// Whether a command ends with what the check found. A command behind it may pass over the rest.
fn ends_check(refusal: Refusal) -> bool {
    match refusal.kind {
        FaultKind::Device | FaultKind::Stream => refusal.is_of_lock(),
        _ => true,
    }
}
