use crate::deciding::decide;
use crate::fault::Fault;
use crate::opening::{named, reopen};
use crate::standby_command::PENDING;
use crate::takeover_command::print_database;
use als_drive::Progress;
use als_engine::Decision;
use als_folder::Folder;
use als_record::TransId;
use std::fs::File;
use std::io::Write;
use std::rt::Files;
use std::sync::Wait;

/// A transaction in doubt of a folder's primary, and what becomes of it.
#[derive(Clone, Copy)]
pub struct Verdict<'a> {
    pub dir: &'a str,
    pub trans: TransId,
    pub decision: Decision,
}

/// Decides a transaction in doubt of a folder's primary, and then prints `end=E` and each record of
/// its database. `progress` receives the progress of its redo.
///
/// NotPrimary: the folder was not taken over. NotInDoubt: the transaction is not in doubt. Device:
/// the folder or one of its files failed, it has no database, or another program has it. Stream: the
/// output failed. Memory: an allocation failed. Else as `Engine::open` says, or the first refusal of
/// an event.
pub fn resolve<R: AllocGlobal + Files<File = File> + Wait, P: Progress, O: Write>(
    rt: &R,
    verdict: Verdict<'_>,
    progress: &mut P,
    output: &mut O,
) -> Result<(), Fault> {
    let folder = Folder::hold(rt, verdict.dir)?;
    match resolve_in(rt, &folder, verdict, progress, output) {
        Ok(()) => Ok(()),
        Err(fault) => Err(named(&folder, fault)),
    }
}

/// The decision in a folder that is held.
fn resolve_in<R: AllocGlobal + Files<File = File> + Wait, P: Progress, O: Write>(
    rt: &R,
    folder: &Folder,
    verdict: Verdict<'_>,
    progress: &mut P,
    output: &mut O,
) -> Result<(), Fault> {
    let Verdict {
        dir: _,
        trans,
        decision,
    } = verdict;
    let mut engine = reopen(rt, folder, PENDING)?;
    decide(rt, &mut engine, trans, decision, progress)?;
    print_database(rt.alloc(), &mut engine, output)
}
