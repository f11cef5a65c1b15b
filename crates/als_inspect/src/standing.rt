use crate::fault::Fault;
use crate::log_text::{Database, database_of};
use crate::restarting::restarted;
use als_ckpt::Phase;
use als_compare::Rank;
use als_engine::{Events, History};
use als_folder::{Folder, Role};
use als_progress::Advance;
use als_text::ShownRow;
use std::alloc::Global;
use std::fs::File;
use std::io::Write;
use std::rt::Files;
use std::sync::Wait;

/// Prints what the standby of a folder holds: its phase, its page count, where its log ends and up
/// to where that is acknowledged, where its checkpoint stands and how many bytes of log lie behind
/// it, how many bytes the log takes at most, and how many more it takes, and its rank; the seals of the takeovers
/// before it, if there are any, as `show epochs` does; its role, if it is a primary's; and then each
/// unended transaction, as `show table` does. The folder is only read. `advance` receives how far its
/// log was.
///
/// Folder: the folder or a file of it failed, or another program has it. Stream: the output failed.
/// Memory: there was none for a copy of it. BadHeader, BadControl, Log, Standby: a restart would
/// refuse the database.
pub fn status<R: AllocGlobal + Files<File = File> + Wait, A: Advance, O: Write>(
    rt: &R,
    dir: &str,
    advance: &mut A,
    output: &mut O,
) -> Result<(), Fault> {
    let folder = Folder::hold_to_read(rt, dir)?;
    let role = folder.role(rt)?;
    let files = folder.open_to_read(rt)?;
    let database = database_of(rt.alloc(), &files)?;
    let (engine, readers) = restarted(rt, &files, &database, advance)?;
    drop(readers);
    let capacity = files.sizes()?.log.saturating_mul(BLOCK);
    tell(rt.alloc(), &database, &engine, capacity, role, output)
}

/// Whether a folder's database follows its primary: it was not taken over. Its log is not read. A folder
/// without a database follows too.
///
/// Else as `database_of` refuses the folder.
pub fn is_following<R: AllocGlobal + Files<File = File>>(rt: &R, dir: &str) -> Result<bool, Fault> {
    let folder = Folder::hold_to_read(rt, dir)?;
    if !folder.is_kept(rt)? {
        return Ok(true);
    }
    let files = folder.open_to_read(rt)?;
    let database = database_of(rt.alloc(), &files)?;
    match database.state.phase {
        Phase::Following => Ok(true),
        Phase::Sealed | Phase::Primary => Ok(false),
    }
}

/// The rank of a folder's node among those of its database: what its control block says. Its log is not
/// read.
///
/// As `database_of` refuses the folder.
pub fn rank_of<R: AllocGlobal + Files<File = File>>(rt: &R, dir: &str) -> Result<Rank, Fault> {
    let folder = Folder::hold_to_read(rt, dir)?;
    let files = folder.open_to_read(rt)?;
    let database = database_of(rt.alloc(), &files)?;
    Ok(Rank::new(&database.state.history, database.state.mark.0))
}

/// Prints the state of a standby and its open transactions.
fn tell<E: Events, O: Write>(
    alloc: Global,
    database: &Database,
    events: &E,
    capacity: u64,
    role: Option<Role>,
    output: &mut O,
) -> Result<(), Fault> {
    let rows = events.table(alloc)?;
    let status = events.status();
    let pages = database.pages;
    let (end, acknowledged) = (status.end.0, status.acknowledged.0);
    let position = database.state.position.0;
    let behind = acknowledged.saturating_sub(position.max(FIRST));
    let history = events.history();
    let Rank { seal, end: whole } = Rank::new(&history, acknowledged);
    writeln!(
        output,
        "phase={} pages={pages} end={end} ack={acknowledged} checkpoint={position} behind={behind} transactions={} capacity={capacity} left={} rank={seal}/{whole}",
        name_of(database.state.phase),
        rows.len(),
        capacity.saturating_sub(end)
    )?;
    seals(&history, output)?;
    if let Some(Role { epoch }) = role {
        writeln!(output, "role primary epoch={epoch}")?;
    }
    for row in rows.iter() {
        writeln!(output, "{}", ShownRow(row))?;
    }
    Ok(())
}

/// Prints the epoch and its seals, where a takeover was before.
fn seals<O: Write>(history: &History, output: &mut O) -> Result<(), Fault> {
    if history.epoch() == 0 {
        return Ok(());
    }
    write!(output, "epoch {} seals", history.epoch())?;
    for seal in history.seals() {
        write!(output, " {seal}")?;
    }
    writeln!(output)?;
    Ok(())
}

/// The bytes of a block.
const BLOCK: u64 = 512;

/// Where the first record of a log stands: a restart without a checkpoint redoes from there.
const FIRST: u64 = 16;

/// The phase's name.
fn name_of(phase: Phase) -> &'static str {
    match phase {
        Phase::Following => "Following",
        Phase::Sealed => "Sealed",
        Phase::Primary => "Primary",
    }
}
