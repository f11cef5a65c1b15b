use crate::fault::Fault;
use crate::forgetting::{Forgets, forget_in};
use crate::opening::{named, reopen};
use crate::standby_command::PENDING;
use crate::taking_over::take_over_telling;
use als_ckpt::Unreached;
use als_drive::{Progress, listing};
use als_engine::Events;
use als_folder::Folder;
use als_record::{FIRST_LSN, TransId, TransactionState};
use std::alloc::{AllocError, Global};
use std::fs::File;
use std::io::Write;
use std::rt::Files;
use std::sync::Wait;

/// What a takeover leaves to be said.
pub struct TakenOver {
    /// The transactions in doubt, in rising TransID.
    pub doubts: Vec<TransId>,
    /// The log holds no record: nothing was ever followed in the folder.
    pub is_empty: bool,
}

/// Makes a primary of the standby of a folder, and then prints `end=E` and each record of its
/// database. It may be called again after a stop: the takeover then goes on. `progress` receives the
/// progress of its redo, and the takeovers that are forgotten first, since the folder's log never
/// reached them.
///
/// Device: the folder or one of its files failed, it has no database, or another program has it.
/// Stream: the output failed. Memory: allocation failed. Else as `Engine::open` says, or the first refusal of an event.
pub fn takeover<R: AllocGlobal + Files<File = File> + Wait, P: Progress + Forgets, O: Write>(
    rt: &R,
    dir: &str,
    progress: &mut P,
    output: &mut O,
) -> Result<TakenOver, Fault> {
    let folder = Folder::hold(rt, dir)?;
    match takeover_in(rt, &folder, progress, output) {
        Ok(taken) => Ok(taken),
        Err(fault) => Err(named(&folder, fault)),
    }
}

/// The takeover of a folder that is held.
fn takeover_in<R: AllocGlobal + Files<File = File> + Wait, P: Progress + Forgets, O: Write>(
    rt: &R,
    folder: &Folder,
    progress: &mut P,
    output: &mut O,
) -> Result<TakenOver, Fault> {
    forget_in(rt, folder, Unreached::AboveEnd, progress)?;
    let mut engine = reopen(rt, folder, PENDING)?;
    take_over_telling(rt, &mut engine, progress)?;
    print_database(rt.alloc(), &mut engine, output)?;
    let doubts = doubts(rt.alloc(), &engine)?;
    let is_empty = engine.status().end == FIRST_LSN;
    Ok(TakenOver { doubts, is_empty })
}

/// Prints where the log ends, and each record of the database.
pub(crate) fn print_database<E: Events, O: Write>(
    alloc: Global,
    events: &mut E,
    output: &mut O,
) -> Result<(), Fault> {
    let records = listing(alloc, events)?;
    writeln!(output, "end={}", events.status().end.0)?;
    output.write_all(records.as_bytes())?;
    Ok(())
}

/// The transactions in doubt, in rising TransID.
fn doubts<E: Events>(alloc: Global, events: &E) -> Result<Vec<TransId>, Fault> {
    let rows = events.table(alloc)?;
    let mut doubts = Vec::new(alloc);
    for row in rows.iter() {
        if matches!(row.state, TransactionState::Prepared) {
            match doubts.push(row.trans) {
                Ok(()) => {}
                Err(_) => return Err(AllocError.into()),
            }
        }
    }
    Ok(doubts)
}
