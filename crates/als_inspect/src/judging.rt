ghost use Rattle.std.specs.Prelude.{◌≡◌, ◌≤◌, ◌↔◌, IsTrue, Err, IsOk, IfOk, IfErr, OnOk};
ghost use Rattle.als_inspect.specs.declared.fault.Fault.{Fault as AnyFault};
ghost use Rattle.als_inspect.specs.Meeting.{IsOfControl, IsOfPage};

use crate::counting::read_all_telling;
use crate::fault::Fault;
use crate::heads::whole_database_of;
use crate::log_text::{Database, LogText, text_below};
use crate::restarting::restarted;
use crate::telling::told;
use crate::unsound::Unsound;
use als_folder::{DeviceFiles, Folder};
use als_progress::Advance;
use std::fs::File;
use std::rt::Files;
use std::sync::Wait;

/// How many records a log has, and where it ends.
pub(crate) type Read = (u64, u64);

/// Judges the control device of a folder's node and its log, as a restart meets them, and answers how many
/// records the log has and where it ends. That the log has room for a takeover is not judged. `advance` receives
/// how far the log was read.
///
/// The first of these: as `whole_database_of` refuses the folder; then a record that is none or may not follow
/// those before it, with its LSN, or that the checkpoint is not that of the records before it.
pub(crate) fn judge_log<R: AllocGlobal + Files<File = File> + Wait, A: Advance>(
    rt: &R,
    folder: &Folder,
    advance: &mut A,
) -> Result<Read, Unsound> {
    let files = opened_to_read(rt, folder)?;
    let database = whole_database_of(rt.alloc(), &files)?;
    let text = text_below(rt.alloc(), &files, &database, advance)?;
    match judge_text(text, false, advance) {
        Ok(read) => Ok(read),
        Err(unsound) => {
            let opened = open_copy(rt, &files, &database, advance);
            Err(met_first(unsound, opened))
        }
    }
}

/// The first that a restart meets in a folder's files, of whose pages one or more are not what the log makes of
/// them: what it meets before any page, or else this fault of the pages.
pub(crate) fn first_fault<R: AllocGlobal + Files<File = File> + Wait, A: Advance>(
    rt: &R,
    folder: &Folder,
    of_pages: Fault,
    advance: &mut A,
) -> Fault {
    met_before(of_pages, judge_before_pages(rt, folder, advance))
}

/// What a restart meets first where this is wrong with the pages, and this became of all that comes before them.
fn met_before(of_pages: Fault, before: Result<(), Fault>) -> Fault
    ensures first { IfErr before (λ fault. result ≡ fault) }
    ensures other { IfOk before (λ _. result ≡ of_pages) }
{
    match before {
        Ok(()) => of_pages,
        Err(fault) => fault,
    }
}

/// What of a restart comes before each page. Its redo meets the pages in the order in which their changes wait, so
/// a fault of a page is not named here.
pub(crate) fn before_pages(restarted: Result<(), Fault>) -> Result<(), Fault>
    ensures done { OnOk restarted (result ≡ restarted) }
    ensures page { IfErr restarted (λ fault. IsOfPage fault → IsOk result) }
    ensures other { IfErr restarted (λ fault. (IsOfPage fault → ⊥) → result ≡ restarted) }
{
    match restarted {
        Err(fault) if is_of_page(fault) => Ok(()),
        Ok(()) | Err(_) => restarted,
    }
}

/// Whether a fault is 33 BadPage.
fn is_of_page(fault: Fault) -> bool
    ensures { IsTrue result ↔ IsOfPage fault }
{
    fault.number() == 33
}

/// Judges all that a restart meets before it reads a page: also whether the log has room for a takeover.
fn judge_before_pages<R: AllocGlobal + Files<File = File> + Wait, A: Advance>(
    rt: &R,
    folder: &Folder,
    advance: &mut A,
) -> Result<(), Fault> {
    if let Err(unsound) = judge_log(rt, folder, advance) {
        return Err(unsound.fault);
    }
    let files = opened_to_read(rt, folder)?;
    let database = whole_database_of(rt.alloc(), &files)?;
    open_copy(rt, &files, &database, advance)
}

/// The files of a folder.
fn opened_to_read<R: AllocGlobal + Files<File = File>>(
    rt: &R,
    folder: &Folder,
) -> Result<DeviceFiles, Fault> {
    Ok(folder.open_to_read(rt)?)
}

/// Opens a copy of a folder's devices as a restart does, and drops it.
fn open_copy<R: AllocGlobal + Wait, A: Advance>(
    rt: &R,
    files: &DeviceFiles,
    database: &Database,
    advance: &mut A,
) -> Result<(), Fault>
    requires { database.now.state.mark.0 ≤ 2147483648 }
{
    let (engine, readers) = restarted(rt, files, database, advance)?;
    drop(readers);
    drop(engine);
    Ok(())
}

/// What a restart meets first in a log of which this is not sound, where this became of the restart: the
/// checkpoint, whose position it reaches before the record, is judged there.
fn met_first(unsound: Unsound, opened: Result<(), Fault>) -> Unsound
    ensures control { (fault : AnyFault) → opened ≡ Err fault → IsOfControl fault
        → IsOfControl result.fault }
    ensures unsound { ((fault : AnyFault) → opened ≡ Err fault → IsOfControl fault → ⊥)
        → result ≡ unsound }
{
    match opened {
        Err(fault) if is_of_control(fault) && !is_of_control(unsound.fault) => Unsound::from(fault),
        Ok(()) | Err(_) => unsound,
    }
}

/// Whether a fault is 34 BadControl: one of the control block or its checkpoint, or of a log that ends within a
/// record.
fn is_of_control(fault: Fault) -> bool
    ensures { IsTrue result ↔ IsOfControl fault }
{
    fault.number() == 34
}

/// Reads all records of a text, and answers how many there are and where they end.
pub(crate) fn judge_text<A: Advance>(
    text: LogText,
    is_file: bool,
    advance: &mut A,
) -> Result<Read, Unsound> {
    let mut text = text;
    let whole = text.whole;
    let read = read_all_telling(&mut text.records, whole, advance);
    let end = text.records.end().0;
    match read {
        Ok(records) => Ok((records, end)),
        Err(fault) => Err(Unsound {
            lsn: end,
            fault: told(fault, is_file),
        }),
    }
}
