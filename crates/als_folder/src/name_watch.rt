//! Whether the files of a folder that is open still have their names.
//!
//! A device has its open file, and writes and syncs go there, wherever its name has gone. So a file that
//! was moved away, with another one in its place, takes acknowledged bytes that no later program would
//! find. Who can look at the paths does so once a second:
//!
//! 1. A path that names another file, or none, is noted as the first failure of its device, whose next
//!    sync then fails. So nothing is acknowledged any more without a log and a control block in place.
//! 2. A path that can't be looked at says nothing: its file may well be there.
//! 3. The files of a database that was there are those that were locked when the folder was taken. Those
//!    of a new one are known by the first look that finds a control block: before, it may still be laid
//!    out in their place.
use als_disk::FirstError;
use std::fs::{self, File, Metadata, OpenFile};
use std::io::ErrorKind;
use std::os::unix::fs::MetadataExt;
use std::path::PathBuf;
use std::rt::Files;
use std::sync::OnceLock;
use std::sync::atomic::{AtomicBool, AtomicU64, Ordering};
use std::time::Clock;

/// Which file of the system it is.
#[derive(Clone, Copy, PartialEq, Eq)]
struct FileId {
    device: u64,
    inode: u64,
}

impl FileId {
    /// The file of which this was found.
    fn of(found: &Metadata) -> FileId {
        FileId {
            device: found.dev(),
            inode: found.ino(),
        }
    }
}

/// Whether a path of this error names no file: it is not there, or its folder is none any more.
fn leads_nowhere(kind: ErrorKind) -> bool {
    kind == ErrorKind::NotFound || kind == ErrorKind::NotADirectory
}

/// The path of one file, which file it named at first, and the note of its device's first failure.
pub(crate) struct Name {
    path: PathBuf,
    file: OnceLock<FileId>,
    failure: FirstError,
}

// Written out: a derived drop is proved wherever a name is dropped, this one only here.
impl Drop for Name {
    fn drop(self) {
        let Name {
            path,
            file,
            failure,
        } = self;
        drop(path);
        drop(file);
        drop(failure);
    }
}

impl Name {
    /// A path that nobody has looked at.
    pub(crate) fn new(path: PathBuf, failure: FirstError) -> Name {
        Name {
            path,
            file: OnceLock::new(),
            failure,
        }
    }

    /// Its file is this one, which is held open.
    pub(crate) fn know<F: OpenFile>(&self, held: &Option<F>) {
        let Some(held) = held else {
            return;
        };
        if let Ok(found) = held.metadata() {
            let _ = self.file.try_set(FileId::of(&found));
        }
    }

    /// Notes a failure if the path names another file than at first, or none. Returns whether it does.
    fn look<R: Files<File = File>>(&self, rt: &R) -> bool {
        let is_lost = match fs::metadata(rt, self.path.as_path()) {
            Ok(found) => self.is_another(FileId::of(&found)),
            Err(e) if leads_nowhere(e.kind()) => self.is_known(),
            Err(_) => false,
        };
        if is_lost {
            self.failure.note_removed();
        }
        is_lost
    }

    /// Whether this file, which the path names, is not the one that is known. The first one is known from
    /// then on.
    fn is_another(&self, file: FileId) -> bool {
        match self.file.get() {
            Some(first) => *first != file,
            None => {
                let _ = self.file.try_set(file);
                false
            }
        }
    }

    /// Whether a look has found its file.
    fn is_known(&self) -> bool {
        self.file.get().is_some()
    }
}

/// The names of the three files of a folder.
pub struct NameWatch {
    log: Name,
    control: Name,
    pages: Name,
    /// The second of the last look, plus 1. 0: there was none.
    looked: AtomicU64,
    /// Whether a look found that a path has lost its file.
    is_lost: AtomicBool,
}

// Written out: a derived drop is proved wherever a watch is dropped, this one only here.
impl Drop for NameWatch {
    fn drop(self) {
        let NameWatch {
            log,
            control,
            pages,
            looked: _,
            is_lost: _,
        } = self;
        drop(log);
        drop(control);
        drop(pages);
    }
}

impl NameWatch {
    /// The names of a folder's files, which nobody has looked at.
    pub(crate) fn over(log: Name, control: Name, pages: Name) -> NameWatch {
        NameWatch {
            log,
            control,
            pages,
            looked: AtomicU64::new(0),
            is_lost: AtomicBool::new(false),
        }
    }

    /// Looks at the paths, once in each second of the clock. Returns whether one has lost its file: at this
    /// look, or at one before.
    pub fn look<R: Files<File = File> + Clock>(&self, rt: &R) -> bool {
        if let Ok(now) = rt.monotonic() {
            let second = now.as_secs().saturating_add(1);
            if self.looked.swap(second, Ordering::SeqCst) == second {
                return self.is_lost.load(Ordering::SeqCst);
            }
        }
        self.look_now(rt)
    }

    /// Looks at the paths, and returns the same. Before the control block is there, a new database may still
    /// be laid out in the place of what the others name.
    pub fn look_now<R: Files<File = File>>(&self, rt: &R) -> bool {
        let mut is_lost = self.control.look(rt);
        if self.control.is_known() {
            is_lost |= self.log.look(rt);
            is_lost |= self.pages.look(rt);
        }
        if is_lost {
            self.is_lost.store(true, Ordering::SeqCst);
        }
        self.is_lost.load(Ordering::SeqCst)
    }
}
