ghost use Rattle.std.specs.Prelude.{◌≤◌};
ghost use Rattle.als_epochs.specs.Histories.{RisesFrom};

use crate::control::say_front;
use crate::fault::Fault;
use crate::judging::{Judged, check_control, judge, of_control, open_log};
use crate::keeping::keep_past;
use crate::losing::{Loses, check_agreed, counted};
use als_ckpt::forget_checkpoint;
use als_disk::{FileDisk, FirstError};
use als_drive::{Progress, recover_telling};
use als_engine::CONTROL_BLOCKS;
use als_folder::{Fault as FolderFault, Folder, Part};
use als_operate::{Fault as NodeFault, PENDING, named, reopen, settle};
use als_progress::Advance;
use als_record::Lsn;
use std::fs::{self, File};
use std::io::{self, Read, Write};
use std::path::PathBuf;
use std::rt::Files;
use std::sync::Wait;

/// Takes the node of a folder back to an LSN of its own log, so that it follows a node whose history
/// goes on from there or later. What its log has above is kept in a file beside the folder first. It
/// then prints `end=E ack=A past=B`: where the log ends now, up to where it is acknowledged, and how
/// many bytes were kept. It may be called again after a stop. `progress` receives how far it has come, and
/// which commits are lost, before anything is written.
///
/// Loses: the log has commits behind the LSN, and `agreed` is not how many. Nothing was written.
/// Look: the log is not sound up to the LSN, or that is within its header or past its end; a file
/// beside the folder or the output failed; or an allocation failed. NoBoundary: no record ends at the
/// LSN. NoRoom: the log up to there has no room for its reserve. Kept: the file that would keep the
/// rest has something else. Node: the folder or a file of it failed, another program has it, or its
/// node is refused. Nothing of the folder was written, but with Node.
pub fn rewind<R: AllocGlobal + Files<File = File> + Wait, P: Progress + Advance + Loses, O: Write>(
    rt: &R,
    dir: &str,
    to: Lsn,
    agreed: Option<u64>,
    progress: &mut P,
    output: &mut O,
) -> Result<(), Fault> {
    let folder = Folder::hold(rt, dir)?;
    match rewind_in(rt, &folder, dir, to, agreed, progress, output) {
        Ok(()) => Ok(()),
        Err(Fault::Node(fault)) => Err(Fault::Node(named(&folder, fault))),
        Err(fault) => Err(fault),
    }
}

/// The same in a folder that is held.
fn rewind_in<R: AllocGlobal + Files<File = File> + Wait, P: Progress + Advance + Loses, O: Write>(
    rt: &R,
    folder: &Folder,
    dir: &str,
    to: Lsn,
    agreed: Option<u64>,
    progress: &mut P,
    output: &mut O,
) -> Result<(), Fault> {
    let judged = judge(rt, folder, dir, to, progress)?;
    let end = judged.state.mark;
    let is_primary = folder.role(rt)?.is_some();
    let losses = counted(rt.alloc(), open_log(rt, dir)?.take(end.0), to, is_primary)?;
    progress.loses(&losses);
    check_agreed(losses.past.count, agreed)?;
    drop(losses);
    keep_past(rt, dir, open_log(rt, dir)?, to, end, progress)?;
    lay_out_pages(rt, folder, judged)?;
    // Before its log is shorter nobody may write it as a primary any more.
    folder.remove_role(rt)?;
    replace_control(rt, dir, judged, to)?;
    recover(rt, folder, progress)?;
    writeln!(
        output,
        "end={} ack={} past={}",
        to.0,
        to.0,
        end.0.saturating_sub(to.0)
    )?;
    Ok(())
}

/// Puts zeros in the place of the pages, once the control block has forgotten its checkpoint.
fn lay_out_pages<R: AllocGlobal + Files<File = File>>(
    rt: &R,
    folder: &Folder,
    judged: Judged,
) -> Result<(), Fault> {
    let laid_out = folder.lay_out_pages(rt, u64::from(judged.pages))?;
    drop(laid_out);
    let mut control = folder.open_control(rt)?;
    check_control(&control)?;
    match forget_checkpoint(&mut control, judged.pages, judged.log_bytes) {
        Ok(_) => {}
        Err(fault) => return Err(of_control(fault)),
    }
    drop(control);
    folder.keep_pages(rt)?;
    Ok(())
}

/// Puts the control block of the log up to an LSN in the place of the one that is there.
fn replace_control<R: AllocGlobal + Files<File = File>>(
    rt: &R,
    dir: &str,
    judged: Judged,
    to: Lsn,
) -> Result<(), Fault>
    requires pages { (1 ≤ judged.pages) × (judged.pages ≤ 4096) }
    requires within { (16 ≤ to.0) × (to.0 ≤ judged.log_bytes) }
    requires history { RisesFrom 16 judged.state.history }
{
    let made = path_of(rt, dir, Part::NewControl)?;
    match fs::remove_file(rt, made.as_path()) {
        Ok(()) => {}
        Err(e) if e.kind() == io::ErrorKind::NotFound => {}
        Err(e) => return Err(of_file(Part::NewControl, e)),
    }
    let first_error = FirstError::new(rt.alloc())?;
    let disk = match FileDisk::create(rt, made.as_path(), CONTROL_BLOCKS, first_error) {
        Ok(disk) => disk,
        Err(e) => return Err(of_file(Part::NewControl, e)),
    };
    match say_front(
        disk,
        judged.pages,
        judged.log_bytes,
        &judged.state.history,
        to,
    ) {
        Ok(disk) => drop(disk),
        Err(fault) => return Err(of_control(fault)),
    }
    let kept = path_of(rt, dir, Part::Control)?;
    match fs::rename(rt, made.as_path(), kept.as_path()) {
        Ok(()) => {}
        Err(e) => return Err(of_file(Part::NewControl, e)),
    }
    sync_folder(rt, dir)
}

/// Opens the node, redoes its whole log and puts the pages and a checkpoint on the files.
fn recover<R: AllocGlobal + Files<File = File> + Wait, P: Progress>(
    rt: &R,
    folder: &Folder,
    progress: &mut P,
) -> Result<(), NodeFault> {
    let mut engine = reopen(rt, folder, PENDING)?;
    recover_telling(rt, &mut engine, progress)?;
    settle(&mut engine)?;
    Ok(())
}

/// Where a part of a folder is.
fn path_of<R: AllocGlobal>(rt: &R, dir: &str, part: Part) -> Result<PathBuf, Fault> {
    Ok(PathBuf::from_str(rt.alloc(), dir)?.join(rt.alloc(), part.file_name())?)
}

/// Makes what a folder says of its files last.
fn sync_folder<R: Files<File = File>>(rt: &R, dir: &str) -> Result<(), Fault> {
    let folder = match File::open(rt, dir) {
        Ok(folder) => folder,
        Err(e) => return Err(of_file(Part::Itself, e)),
    };
    match folder.sync_all() {
        Ok(()) => Ok(()),
        Err(e) => Err(of_file(Part::Itself, e)),
    }
}

/// What the failure of a call on a part of the folder is.
fn of_file(part: Part, e: io::Error) -> Fault {
    Fault::from(FolderFault::of(part, e))
}
