ghost use Rattle.std.specs.Prelude.{◌≡◌, ◌≤◌, ◌*◌, IfOk, IfErr};
ghost use Rattle.als_record.specs.declared.lsn.Lsn.{Lsn as AnyLsn};
ghost use Rattle.als_lookback.specs.declared.until.Until.TheVariants.{At};
ghost use Rattle.als_lookback.specs.Seen.{CommitsAt};
ghost use Rattle.als_backup.specs.declared.fault.Fault.TheVariants.{TooFew};

use crate::fault::Fault;
use crate::filling::fill;
use als_disk::FileDisk;
use als_engine::{Engine, Events};
use als_epochs::History;
use als_folder::{Fault as FolderFault, Part};
use als_lookback::{Fault as LookFault, Until, find_commit, look_over, open};
use als_operate::{Fault as NodeFault, Following, Held, StandbyUpkeep, hold, named};
use als_progress::{Advance, Watched, Work};
use als_record::{Lsn, TransId};
use std::alloc::Global;
use std::fs::{self, File};
use std::io::Read;
use std::net::Net;
use std::random::RandomSource;
use std::rt::Files;
use std::sync::Wait;
use std::time::Clock;

/// What is restored, and into what.
#[derive(Clone, Copy)]
pub struct Restoring<'a> {
    /// A log file, or the folder of a node that does not run.
    pub path: &'a str,
    /// The folder of the new node, which is there and empty.
    pub dir: &'a str,
    /// The last record that is taken ends at or below this LSN.
    pub at: Option<u64>,
    /// It is in front of this transaction's commit record.
    pub before_commit: Option<u32>,
    /// Blocks of the new node's log. None: as many as its log needs and as many again.
    pub log_blocks: Option<u64>,
    /// The takeovers before the node whose log it is.
    pub history: History,
}

/// What was restored.
#[derive(Clone, Copy, Debug)]
pub struct Restored {
    /// Where the log ends.
    pub end: Lsn,
    /// How many pages the database has.
    pub pages: u64,
    /// How many blocks its log has.
    pub log_blocks: u64,
    /// How many commits it has.
    pub commits: u64,
}

/// The blocks of the log of a new database, where nothing else is said.
const LOG_BLOCKS: u64 = 2_048;

/// The most blocks that a log has.
const LIMIT: u64 = 4_194_304;

/// Makes a node of a log text in an empty folder: a standby that holds the text up to the last record that is
/// taken. The text is judged whole before anything is written, and the folder has a database only once all
/// of it is on the devices. `advance` receives how far the text was read.
///
/// NotEmpty: the folder has something in it. TooFew: the log would not fit its blocks. BadSeals: a takeover
/// was sealed past the end. Look: the text is no
/// log up to there, or no record ends there. Node: the folder or a file of it failed; LogFull: its log has
/// no room for what a takeover would append in between.
pub fn restore<
    R: AllocGlobal + Files<File = File> + Net + Wait + Clock + RandomSource + Clone + Drop,
    A: Advance,
>(rt: &R, restoring: &Restoring<'_>, advance: &mut A) -> Result<Restored, Fault> {
    check_empty(rt, restoring.dir)?;
    let until = until_of(rt, restoring, advance)?;
    let source = open(rt, restoring.path)?;
    let whole = source.reach(until);
    let (reader, held) = source.into_parts();
    let reader = Watched::new(reader, Work::Judge, whole, &mut *advance);
    let (seen, standing) = look_over(rt.alloc(), reader, until)?;
    drop(held);
    let needed = blocks_of(standing.end.0.saturating_add(standing.reserve));
    let restored = Restored {
        end: standing.end,
        pages: u64::from(seen.pages()),
        log_blocks: log_blocks_of(needed, restoring.log_blocks)?,
        commits: seen.commits(),
    };
    check_history(&restoring.history, restored.end)?;
    drop(seen);
    drop(standing);
    build(rt, restoring, restored)?;
    Ok(restored)
}

/// Whether an empty folder may have a file of this name: what a stopped layout left, and what a file system
/// keeps.
fn is_left(name: &str) -> bool {
    matches!(
        name,
        "log.new" | "control.new" | "pages.new" | "role.new" | "id" | "id.new" | "lost+found"
    )
}

/// That a folder has nothing in it.
fn check_empty<R: AllocGlobal + Files<File = File> + Clone + Drop>(
    rt: &R,
    dir: &str,
) -> Result<(), Fault> {
    let entries = match fs::read_dir(rt, dir) {
        Ok(entries) => entries,
        Err(e) => {
            let fault = FolderFault::of(Part::Itself, e);
            return Err(Fault::Node(NodeFault::Folder(fault)));
        }
    };
    for entry in entries {
        let entry = entry?;
        if !is_left(entry.file_name()) {
            return Err(Fault::NotEmpty);
        }
    }
    Ok(())
}

/// Up to where the text is taken.
fn until_of<R: AllocGlobal + Files<File = File>, A: Advance>(
    rt: &R,
    restoring: &Restoring<'_>,
    advance: &mut A,
) -> Result<Until, Fault> {
    match (restoring.at, restoring.before_commit) {
        (Some(lsn), _) => Ok(Until::At(Lsn(lsn))),
        (None, None) => Ok(Until::End),
        (None, Some(trans)) => {
            let source = open(rt, restoring.path)?;
            let whole = source.reach(Until::End);
            let (reader, held) = source.into_parts();
            let reader = Watched::new(reader, Work::Judge, whole, advance);
            let until = until_commit(rt.alloc(), reader, TransId(trans))?;
            drop(held);
            Ok(until)
        }
    }
}

/// Up to the record that commits a transaction, without it.
fn until_commit<R: Read + Drop>(
    alloc: Global,
    reader: R,
    trans: TransId,
) -> Result<Until, LookFault>
    ensures { IfOk result (λ until. (lsn : AnyLsn) × (until ≡ At lsn)
        × CommitsAt (R.remaining reader) trans.0 lsn.0) }
{
    let lsn = find_commit(alloc, reader, trans)?;
    Ok(Until::At(lsn))
}

/// How many blocks so many bytes take.
fn blocks_of(bytes: u64) -> u64
    ensures { bytes ≤ result * 512 }
{
    bytes.div_ceil(512)
}

/// How many blocks a log gets that needs so many.
fn log_blocks_of(needed: u64, wanted: Option<u64>) -> Result<u64, Fault>
    ensures ok { IfOk result (λ blocks. needed ≤ blocks) }
    ensures err { IfErr result (λ fault. fault ≡ TooFew needed) }
{
    match wanted {
        Some(blocks) if blocks >= needed => Ok(blocks),
        Some(_) => Err(Fault::TooFew { needed }),
        None => Ok(
            needed
                .saturating_mul(2)
                .clamp(LOG_BLOCKS, LIMIT)
                .max(needed),
        ),
    }
}

/// That no takeover was sealed past the end of the text.
fn check_history(history: &History, end: Lsn) -> Result<(), Fault> {
    if history.last().0 <= end.0 && history.has_lsns() {
        Ok(())
    } else {
        Err(Fault::BadSeals)
    }
}

/// Lays a new node out in the folder, takes the text in, and gives the folder its database.
fn build<R: AllocGlobal + Files<File = File> + Net + Wait + Clock + RandomSource>(
    rt: &R,
    restoring: &Restoring<'_>,
    restored: Restored,
) -> Result<(), Fault> {
    let Held {
        folder,
        mut engine,
        readers,
        is_new,
        greeted,
        introducing,
    } = hold(rt, following_of(restoring, restored), 1, false)?;
    drop(readers);
    drop(greeted);
    drop(introducing);
    // Another program was faster.
    if !is_new {
        return Err(Fault::NotEmpty);
    }
    match fill_in(rt, &mut engine, restoring, restored) {
        Ok(()) => {}
        Err(Fault::Node(fault)) => return Err(Fault::Node(named(&folder, fault))),
        Err(fault) => return Err(fault),
    }
    folder.keep(rt)?;
    Ok(())
}

/// Takes the text in.
fn fill_in<R: AllocGlobal + Files<File = File> + Wait>(
    rt: &R,
    engine: &mut Engine<FileDisk>,
    restoring: &Restoring<'_>,
    restored: Restored,
) -> Result<(), Fault> {
    let (mut reader, held) = open(rt, restoring.path)?.into_parts();
    let mut upkeep = StandbyUpkeep::new(rt, 0, engine.status().end);
    let (history, end) = (restoring.history, restored.end.0);
    fill(rt.alloc(), engine, &mut upkeep, history, end, &mut reader)?;
    drop(held);
    Ok(())
}

/// A new node, that follows nobody yet.
fn following_of<'a>(restoring: &Restoring<'a>, restored: Restored) -> Following<'a> {
    Following {
        dir: restoring.dir,
        from: "",
        pages: restored.pages,
        log_blocks: restored.log_blocks,
        checkpoint_mb: 0,
        timeout: 0,
    }
}
