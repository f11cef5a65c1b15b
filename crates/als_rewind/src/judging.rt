ghost use Rattle.std.specs.Prelude.{◌≤◌, IfOk, OnOk};
ghost use Rattle.als_epochs.specs.Histories.{RisesFrom};

use crate::fault::Fault;
use als_ckpt::{ControlState, Fault as ControlFault, read_state};
use als_disk::{BlockDisk, FileDisk};
use als_engine::{CONTROL_BLOCKS, Fault as EngineFault, LOG_BLOCK_LIMIT};
use als_folder::{Fault as FolderFault, Folder, LOG_LIMIT, Part, Trouble, Wrong};
use als_lookback::{Fault as LookFault, Until, log_path, look_over};
use als_operate::Fault as NodeFault;
use als_progress::{Advance, Watched, Work};
use als_record::{FIRST_LSN, LogHeader, Lsn};
use std::fs::File;
use std::io::Read;
use std::os::unix::fs::FileExt;
use std::rt::Files;

/// A folder whose log was read up to an LSN at which a record of it ends.
#[derive(Clone, Copy)]
pub(crate) struct Judged {
    /// How many pages its database has.
    pub pages: u32,
    /// The bytes of its log's device.
    pub log_bytes: u64,
    /// What its control block says.
    pub state: ControlState,
}

/// Reads the log of a folder that is held up to an LSN. Nothing is written. `advance` receives how far
/// it was read.
///
/// Look: the log is not sound up to there, or the LSN is within its header or past its end.
/// NoBoundary: no record ends there. NoRoom: the log up to there has no room for its reserve. Node:
/// the folder or a file of it failed, or nothing says how far its log is acknowledged.
pub(crate) fn judge<R: AllocGlobal + Files<File = File>, A: Advance>(
    rt: &R,
    folder: &Folder,
    dir: &str,
    to: Lsn,
    advance: &mut A,
) -> Result<Judged, Fault>
    ensures pages { IfOk result (λ j. (1 ≤ j.pages) × (j.pages ≤ 4096)) }
    ensures within { IfOk result (λ j. (16 ≤ to.0) × (to.0 ≤ j.log_bytes)) }
    ensures history { IfOk result (λ j. RisesFrom 16 j.state.history) }
{
    let mut control = folder.open_control(rt)?;
    check_control(&control)?;
    let log = open_log(rt, dir)?;
    let (pages, log_bytes) = extent_of(&log)?;
    let state = match read_state(&mut control, pages, LOG_LIMIT) {
        Ok(state) => state,
        Err(fault) => return Err(of_control(fault)),
    };
    drop(control);
    if state.mark.0 > log_bytes {
        return Err(short(Part::Log));
    }
    check_within(to, state.mark)?;
    let reader = Watched::new(log.take(state.mark.0), Work::Judge, to.0, advance);
    let (seen, standing) = look_over(rt.alloc(), reader, Until::At(to))?;
    drop(seen);
    if standing.end != to {
        return Err(Fault::NoBoundary {
            below: standing.end,
        });
    }
    if standing.reserve > log_bytes.saturating_sub(to.0) {
        return Err(Fault::NoRoom);
    }
    Ok(Judged {
        pages,
        log_bytes,
        state,
    })
}

/// That a log which ends there may be looked at up to an LSN.
fn check_within(to: Lsn, end: Lsn) -> Result<(), LookFault>
    ensures { OnOk result ((16 ≤ to.0) × (to.0 ≤ end.0)) }
{
    if to.0 < FIRST_LSN.0 {
        return Err(LookFault::InHeader);
    }
    if end.0 < to.0 {
        return Err(LookFault::PastEnd { end });
    }
    Ok(())
}

/// The log's file, to be read.
pub(crate) fn open_log<R: AllocGlobal + Files<File = File>>(
    rt: &R,
    dir: &str,
) -> Result<File, Fault> {
    match File::open(rt, log_path(rt, dir)?.as_path()) {
        Ok(log) => Ok(log),
        Err(e) => Err(Fault::from(FolderFault::of(Part::Log, e))),
    }
}

/// How many pages the log's header says, and how many bytes its device has.
fn extent_of(log: &File) -> Result<(u32, u64), Fault>
    ensures { IfOk result (λ e. (1 ≤ e.0) × (e.0 ≤ 4096)) }
{
    let blocks = match log.metadata() {
        Ok(found) => found.len() / 512,
        Err(e) => return Err(Fault::from(FolderFault::of(Part::Log, e))),
    };
    if blocks == 0 {
        return Err(short(Part::Log));
    }
    if blocks > LOG_BLOCK_LIMIT {
        return Err(refused(EngineFault::BadConfig));
    }
    let mut front = [0; 16];
    match log.read_exact_at(&mut front, 0) {
        Ok(()) => {}
        Err(e) => return Err(Fault::from(FolderFault::of(Part::Log, e))),
    }
    match LogHeader::decode(&front) {
        Ok(Some(header)) => Ok((header.pages, blocks * 512)),
        Ok(None) | Err(_) => Err(refused(EngineFault::BadHeader)),
    }
}

/// Refuses a control file that is too short.
pub(crate) fn check_control(control: &FileDisk) -> Result<(), Fault>
    ensures { OnOk result (321 ≤ ⟦<FileDisk<File> as BlockDisk>⟧.block_count control.now) }
{
    if control.blocks() < CONTROL_BLOCKS {
        return Err(short(Part::Control));
    }
    Ok(())
}

/// A file is too short.
fn short(part: Part) -> Fault {
    let wrong = Wrong::Short;
    Fault::from(FolderFault::Damaged(Trouble { part, wrong }))
}

/// The node is refused.
pub(crate) fn refused(fault: EngineFault) -> Fault {
    Fault::Node(NodeFault::Refused(fault))
}

/// Why the control block is refused.
pub(crate) fn of_control(fault: ControlFault) -> Fault {
    match fault {
        ControlFault::Device => refused(EngineFault::Device),
        ControlFault::Memory => Fault::Node(NodeFault::Memory),
        _ => refused(EngineFault::BadControl),
    }
}
