use crate::copying::copy;
use crate::counting::is_told;
use crate::fault::Fault;
use crate::heads::whole_database_of;
use crate::judging::first_fault;
use crate::log_text::{LogText, text_below};
use crate::telling::told;
use crate::verifying::is_finding;
use als_ckpt::{Fault as ControlFault, read_said};
use als_engine::{CONTROL_BLOCKS, Fault as EngineFault};
use als_folder::{DeviceFiles, Fault as FolderFault, Folder, LOG_LIMIT, Part};
use als_pages_check::Checks;
use als_progress::{Advance, Unwatched, Work};
use als_record::{BLOCK_LEN, FIRST_LSN, LoggedPage, Lsn};
use std::alloc::Global;
use std::fs::File;
use std::os::unix::fs::FileExt;
use std::rt::Files;
use std::sync::Wait;

/// Checks the pages of a folder's node against its log, as far as that is acknowledged: the block of
/// each page has to be what the log makes of the page at the block's page_LSN, and may lack no change
/// that a restart would not redo. The folder is only read. Where it has no database nothing is checked.
/// `advance` receives how far its log was read.
///
/// Standby(BadPage): the first page that is not so, where a restart meets nothing else before its pages. Else the
/// first that a restart meets, as `verify` names it. Memory: there was none for a copy of the log, or for 1,032
/// bytes a page.
pub fn check_pages<R: AllocGlobal + Files<File = File> + Wait, A: Advance>(
    rt: &R,
    dir: &str,
    advance: &mut A,
) -> Result<(), Fault> {
    let folder = Folder::hold_to_read(rt, dir)?;
    if !folder.is_kept(rt)? {
        return Ok(());
    }
    match check_folder(rt, &folder, advance) {
        Err(fault) if is_finding(fault) => Err(first_fault(rt, &folder, fault, advance)),
        checked => checked,
    }
}

/// The same of a folder that is held.
pub(crate) fn check_folder<R: AllocGlobal + Files<File = File>, A: Advance>(
    rt: &R,
    folder: &Folder,
    advance: &mut A,
) -> Result<(), Fault> {
    let files = folder.open_to_read(rt)?;
    let database = whole_database_of(rt.alloc(), &files)?;
    let mut checks = checks_of(rt.alloc(), &files, database.pages)?;
    let text = text_below(rt.alloc(), &files, &database, advance)?;
    note_all(text, &mut checks, advance)?;
    match checks.first_differing() {
        Some(page) => Err(Fault::Standby(EngineFault::BadPage { page })),
        None => Ok(()),
    }
}

/// Takes each record of a log.
fn note_all<A: Advance>(text: LogText, checks: &mut Checks, advance: &mut A) -> Result<(), Fault> {
    let mut text = text;
    for count in 0..u64::MAX {
        if is_told(count) {
            advance.advances(Work::Compare, text.records.end().0, text.whole);
        }
        match text.records.next() {
            Ok(Some(logged)) => checks.note(&logged),
            Ok(None) => return Ok(()),
            Err(fault) => return Err(told(fault, false)),
        }
    }
    Ok(())
}

/// Each page with its block, and with the LSN from which on a restart redoes its changes.
fn checks_of(alloc: Global, files: &DeviceFiles, pages: u32) -> Result<Checks, Fault> {
    let (from, rows) = rows_of(alloc, files, pages)?;
    let mut checks = Checks::new(alloc);
    for page in 0..pages {
        let block = block_of(files, page)?;
        checks.add(&block, redone_from(rows.as_slice(), page, from))?;
    }
    Ok(checks)
}

/// From where on a restart redoes the changes of a page: the RecLSN of its row, or else the
/// checkpoint's position.
fn redone_from(rows: &[LoggedPage], page: u32, from: Lsn) -> Lsn {
    for row in rows {
        if row.page == page {
            return row.rec_lsn;
        }
    }
    from
}

/// The position of the checkpoint that a folder publishes, and its rows; without one the first
/// record's place, and no rows.
fn rows_of(
    alloc: Global,
    files: &DeviceFiles,
    pages: u32,
) -> Result<(Lsn, Vec<LoggedPage>), Fault> {
    let mut rows = Vec::new(alloc);
    let mut disk = match copy(
        alloc,
        &files.control,
        CONTROL_BLOCKS * 512,
        CONTROL_BLOCKS,
        &mut Unwatched,
    ) {
        Ok(disk) => disk,
        Err(e) => return Err(Fault::Folder(FolderFault::of(Part::Control, e))),
    };
    match read_said(alloc, &mut disk, pages, LOG_LIMIT) {
        Ok((_, None)) => Ok((FIRST_LSN, rows)),
        Ok((_, Some(checkpoint))) => {
            rows.extend_from_slice(checkpoint.pages.as_slice())?;
            Ok((checkpoint.numbers.position, rows))
        }
        Err(ControlFault::Memory) => Err(Fault::Memory),
        Err(_) => Err(Fault::BadControl),
    }
}

/// A page's block.
fn block_of(files: &DeviceFiles, page: u32) -> Result<[u8; BLOCK_LEN], Fault> {
    let mut block = [0; BLOCK_LEN];
    match files
        .pages
        .read_exact_at(block.as_mut_slice(), u64::from(page) * 512)
    {
        Ok(()) => Ok(block),
        Err(e) => Err(Fault::Folder(FolderFault::of(Part::Pages, e))),
    }
}
