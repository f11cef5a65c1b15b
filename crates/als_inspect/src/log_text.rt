ghost use Rattle.std.specs.Prelude.{◌≡◌, ◌≤◌, ◌*◌, ℕ, IfOk, IfErr};
ghost use Rattle.als_disk.specs.MemDisk.{mem_blocks, mem_slot};
ghost use Rattle.als_disk.specs.Slot.{IsSettled};

use crate::copying::copy;
use crate::fault::Fault;
use crate::heads::whole_database_of;
use als_ckpt::{ControlState, Fault as ControlFault, read_state};
use als_disk::MemDisk;
use als_engine::CONTROL_BLOCKS;
use als_folder::{
    DeviceFiles, Fault as FolderFault, Folder, LOG_LIMIT, Part, Sizes, Trouble, Wrong,
};
use als_progress::{Advance, Unwatched};
use als_record::LogHeader;
use als_scan::Scan;
use std::alloc::Global;
use std::fs::File;
use std::os::unix::fs::FileExt;
use std::rt::Files;
use std::{fs, io};

/// A log text that begins with a header: a copy of it, of which no record is read yet.
pub struct LogText {
    /// Its records, to be read and judged one after another.
    pub records: Scan<MemDisk>,
    /// How many bytes it has.
    pub whole: u64,
}

// Written out: a derived drop is proved wherever a text is dropped, this one only here.
impl Drop for LogText {
    fn drop(self) {
        let LogText { records, whole: _ } = self;
        drop(records);
    }
}

/// The text that stands below an offset in these blocks.
fn text_in(alloc: Global, disk: MemDisk, pages: u32, end: u64) -> Result<LogText, Fault>
    requires settled { (k : ℕ) → IsSettled (mem_slot disk k) }
    requires few { mem_blocks disk ≤ 4194304 }
    requires low { 16 ≤ end }
    requires high { end ≤ 512 * mem_blocks disk }
{
    match Scan::new(alloc, disk, pages, end) {
        Ok(records) => Ok(LogText {
            records,
            whole: end,
        }),
        Err(unread) => {
            let fault = unread.fault;
            drop(unread);
            Err(Fault::Log(fault))
        }
    }
}

/// The text of a log file.
///
/// BadHeader: it begins with none. Stream: the file failed, or is longer than the largest log.
/// Memory: there was none for it.
pub fn text_of_file<R: AllocGlobal + Files<File = File>, A: Advance>(
    rt: &R,
    path: &str,
    advance: &mut A,
) -> Result<LogText, Fault> {
    let file = File::open(rt, path)?;
    let end = file.metadata()?.len();
    if end > LOG_LIMIT {
        return Err(Fault::Stream);
    }
    if end < 16 {
        return Err(Fault::BadHeader);
    }
    let Some(pages) = pages_of(first_bytes(&file)?) else {
        return Err(Fault::BadHeader);
    };
    let disk = copy(rt.alloc(), &file, end, end.div_ceil(512), advance)?;
    text_in(rt.alloc(), disk, pages, end)
}

/// What the files of a folder say of its database before a record is read.
#[derive(Clone, Copy)]
pub struct Database {
    /// The page count of the log's header.
    pub pages: u32,
    /// What the control block says: how far the log is acknowledged, for one.
    pub state: ControlState,
}

/// The text of a folder's log, as far as it is acknowledged. The refusals are those of
/// `database_of`, and Memory: there was none for the text.
pub fn text_of_folder<R: AllocGlobal + Files<File = File>, A: Advance>(
    rt: &R,
    folder: &Folder,
    advance: &mut A,
) -> Result<LogText, Fault> {
    let files = folder.open_to_read(rt)?;
    let database = database_of(rt.alloc(), &files)?;
    text_below(rt.alloc(), &files, &database, advance)
}

/// The text of a database's log, as far as it is acknowledged.
pub(crate) fn text_below<A: Advance>(
    alloc: Global,
    files: &DeviceFiles,
    database: &Database,
    advance: &mut A,
) -> Result<LogText, Fault>
    requires low { 16 ≤ database.now.state.mark.0 }
    requires high { database.now.state.mark.0 ≤ 2147483648 }
{
    let end = database.state.mark.0;
    match copy(alloc, &files.log, end, end.div_ceil(512), advance) {
        Ok(disk) => text_in(alloc, disk, database.pages, end),
        Err(e) => Err(Fault::Folder(of_log(e))),
    }
}

/// What the log's header and the control block of a folder say of its database. Of pages.blk nothing is
/// asked.
///
/// BadHeader: the log begins with none. BadControl: nothing says how far it is acknowledged. Folder:
/// the folder or a file of it failed, or the log or the control block's file is too short. Where several are
/// wrong, the first one is named as `whole_database_of` does.
pub fn database_of(alloc: Global, files: &DeviceFiles) -> Result<Database, Fault>
    ensures { IfOk result (λ d. (16 ≤ d.state.mark.0) × (d.state.mark.0 ≤ 2147483648)) }
{
    match said_by(alloc, files) {
        Ok(database) => Ok(database),
        Err(fault) => Err(first_wrong(fault, whole_database_of(alloc, files))),
    }
}

/// What is wrong first with files of which this is wrong, where this is their whole database.
fn first_wrong(fault: Fault, whole: Result<Database, Fault>) -> Fault
    ensures first { IfErr whole (λ first. result ≡ first) }
    ensures other { IfOk whole (λ _. result ≡ fault) }
{
    match whole {
        Ok(_) => fault,
        Err(first) => first,
    }
}

/// What the header and the control block say, of a database of as many pages as the header has.
fn said_by(alloc: Global, files: &DeviceFiles) -> Result<Database, Fault>
    ensures { IfOk result (λ d. (16 ≤ d.state.mark.0) × (d.state.mark.0 ≤ 2147483648)) }
{
    let found = files.sizes().map_err(of_folder)?;
    if found.log == 0 {
        return Err(damaged(Part::Log));
    }
    let Some(pages) = pages_of(first_bytes(&files.log).map_err(of_log)?) else {
        return Err(Fault::BadHeader);
    };
    let state = control_state(alloc, &files.control, pages, found)?;
    Ok(Database { pages, state })
}

/// What the control block says. A log that ends in front of the mark is damaged.
pub(crate) fn control_state(
    alloc: Global,
    control: &File,
    pages: u32,
    found: Sizes,
) -> Result<ControlState, Fault>
    ensures { IfOk result (λ state. (16 ≤ state.mark.0) × (state.mark.0 ≤ 2147483648)) }
{
    if found.control < CONTROL_BLOCKS {
        return Err(damaged(Part::Control));
    }
    let mut disk = match copy(alloc, control, 512, 1, &mut Unwatched) {
        Ok(disk) => disk,
        Err(e) => return Err(Fault::Folder(FolderFault::of(Part::Control, e))),
    };
    match read_state(&mut disk, pages, LOG_LIMIT) {
        Ok(state) => {
            if state.mark.0.div_ceil(512) > found.log {
                return Err(damaged(Part::Log));
            }
            Ok(state)
        }
        Err(ControlFault::Device) => Err(control_failed()),
        Err(_) => Err(Fault::BadControl),
    }
}

/// The file of the control block failed.
pub(crate) fn control_failed() -> Fault {
    Fault::Folder(FolderFault::Device(Trouble {
        part: Part::Control,
        wrong: Wrong::Failed,
    }))
}

/// A file of the folder is too short.
pub fn damaged(part: Part) -> Fault {
    let wrong = Wrong::Short;
    Fault::Folder(FolderFault::Damaged(Trouble { part, wrong }))
}

/// What the failure of a question about the folder's files is.
pub(crate) fn of_folder(e: io::Error) -> FolderFault {
    FolderFault::of(Part::Itself, e)
}

/// What the failure of a call on the folder's log is.
pub(crate) fn of_log(e: io::Error) -> FolderFault {
    FolderFault::of(Part::Log, e)
}

/// The first bytes of a file, as many as a header has.
pub(crate) fn first_bytes(file: &File) -> io::Result<[u8; 16]> {
    let mut bytes = [0; 16];
    file.read_exact_at(&mut bytes, 0)?;
    Ok(bytes)
}

/// The page count that a header says. None: the bytes are no header.
pub(crate) fn pages_of(header: [u8; 16]) -> Option<u32> {
    match LogHeader::decode(&header) {
        Ok(Some(header)) => Some(header.pages),
        Ok(None) | Err(_) => None,
    }
}
