ghost use Rattle.std.specs.Prelude.{◌≡◌, ◌≤◌, IfOk};
ghost use Rattle.als_disk.specs.MemDisk.{mem_blocks, mem_slot};
ghost use Rattle.als_disk.specs.Slot.{IsSettled};
ghost use Rattle.als_lookback.specs.Reach.{reach_of};

use crate::fault::Fault;
use crate::until::Until;
use als_ckpt::read_state;
use als_disk::{BlockDisk, DeviceError, MemDisk};
use als_epochs::History;
use als_folder::{DeviceFiles, Fault as FolderFault, Folder, LOG_LIMIT, Part, Trouble, Wrong};
use als_record::{BLOCK_LEN, LogHeader, Lsn};
use std::alloc::{AllocError, Global};
use std::fs::{self, File};
use std::io::{Read, Take};
use std::os::unix::fs::FileExt;
use std::path::PathBuf;
use std::rt::Files;

/// A log that stands in a file or in a folder: from its first byte on, as far as it is one.
pub struct Source {
    reader: Take<File>,
    /// How many bytes that are.
    pub(crate) end: u64,
    /// The takeovers before the node whose log it is. A file tells of none.
    history: History,
    /// The folder, held as long as it is read.
    folder: Option<Folder>,
}

// Written out: a derived drop is proved wherever a source is dropped, this one only here.
impl Drop for Source {
    fn drop(self) {
        let Source {
            reader,
            end: _,
            history: _,
            folder,
        } = self;
        drop(reader);
        drop(folder);
    }
}

impl Source {
    /// How many bytes of it a look reads, up to where it is looked at.
    #[tactic(auto, unfolding(crate::specs::Reach::reach_of))]
    pub fn reach(&self, until: Until) -> u64
        ensures { result ≡ reach_of until self.now.end }
    {
        match until {
            Until::At(lsn) => lsn.0.min(self.end),
            Until::End => self.end,
        }
    }

    /// The takeovers before the node whose log it is. A file tells of none.
    pub fn history(&self) -> History {
        self.history
    }

    /// What is read of it, and the folder, to be held meanwhile.
    pub fn into_parts(self) -> (Take<File>, Option<Folder>) {
        let Source {
            reader,
            end: _,
            history: _,
            folder,
        } = self;
        (reader, folder)
    }
}

/// The log at a path: of a folder what is acknowledged, of a file all of it.
///
/// BadHeader: the folder's log begins with none. BadControl: nothing says how far it is acknowledged.
/// Folder: the folder or a file of it failed, or another program has it. Stream: the file failed, or
/// is longer than the largest log. Memory: there was none for a name.
pub fn open<R: AllocGlobal + Files<File = File>>(rt: &R, path: &str) -> Result<Source, Fault> {
    if fs::metadata(rt, path)?.is_dir() {
        return open_folder(rt, path);
    }
    let file = File::open(rt, path)?;
    let end = file.metadata()?.len();
    if end > LOG_LIMIT {
        return Err(Fault::Stream);
    }
    Ok(Source {
        reader: file.take(end),
        end,
        history: History::empty(),
        folder: None,
    })
}

/// That a look stops where there is something of the source, before anything of it is written.
pub(crate) fn check_reaches(source: &Source, until: Until) -> Result<(), Fault> {
    match until {
        Until::At(lsn) if lsn.0 > source.end => Err(Fault::PastEnd {
            end: Lsn(source.end),
        }),
        Until::At(_) | Until::End => Ok(()),
    }
}

/// The log of a folder.
fn open_folder<R: AllocGlobal + Files<File = File>>(rt: &R, path: &str) -> Result<Source, Fault> {
    let folder = Folder::hold_to_read(rt, path)?;
    let files = folder.open_to_read(rt)?;
    let (end, history) = acknowledged(rt.alloc(), &files)?;
    let log = match File::open(rt, log_path(rt, path)?.as_path()) {
        Ok(log) => log,
        Err(e) => return Err(Fault::Folder(FolderFault::of(Part::Log, e))),
    };
    Ok(Source {
        reader: log.take(end),
        end,
        history,
        folder: Some(folder),
    })
}

/// Where the log of a folder is.
pub fn log_path<R: AllocGlobal>(rt: &R, dir: &str) -> Result<PathBuf, AllocError> {
    PathBuf::from_str(rt.alloc(), dir)?.join(rt.alloc(), Part::Log.file_name())
}

/// Up to where the log of a folder is acknowledged, and the takeovers before its node.
fn acknowledged(alloc: Global, files: &DeviceFiles) -> Result<(u64, History), Fault>
    ensures { IfOk result (λ found. (16 ≤ found.0) × (found.0 ≤ 2147483648)) }
{
    let mut front = [0; 16];
    if let Err(e) = files.log.read_exact_at(&mut front, 0) {
        return Err(Fault::Folder(FolderFault::of(Part::Log, e)));
    }
    let Ok(Some(header)) = LogHeader::decode(&front) else {
        return Err(Fault::BadHeader);
    };
    let mut disk = control_block(alloc, files)?;
    match read_state(&mut disk, header.pages, LOG_LIMIT) {
        Ok(state) => {
            check_length(files, state.mark)?;
            Ok((state.mark.0, state.history))
        }
        Err(_) => Err(Fault::BadControl),
    }
}

/// The control block of a folder, on a device of its own.
fn control_block(alloc: Global, files: &DeviceFiles) -> Result<MemDisk, Fault>
    ensures count { IfOk result (λ disk. mem_blocks disk ≡ 1) }
    ensures settled { IfOk result (λ disk. IsSettled (mem_slot disk 0)) }
{
    let mut block = [0; BLOCK_LEN];
    if let Err(e) = files.control.read_exact_at(&mut block, 0) {
        return Err(Fault::Folder(FolderFault::of(Part::Control, e)));
    }
    let mut disk = MemDisk::new(alloc, 1);
    match disk.write(0, &block) {
        Ok(()) => {}
        Err(DeviceError) => return Err(Fault::Memory),
    }
    match disk.sync() {
        Ok(()) => Ok(disk),
        Err(DeviceError) => unreachable!(),
    }
}

/// That the log's device reaches as far as the log is acknowledged.
fn check_length(files: &DeviceFiles, mark: Lsn) -> Result<(), Fault> {
    let found = match files.sizes() {
        Ok(found) => found,
        Err(e) => return Err(Fault::Folder(FolderFault::of(Part::Itself, e))),
    };
    if mark.0.div_ceil(512) > found.log {
        let (part, wrong) = (Part::Log, Wrong::Short);
        return Err(Fault::Folder(FolderFault::Damaged(Trouble { part, wrong })));
    }
    Ok(())
}
