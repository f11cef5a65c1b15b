// A file system that holds nothing and writes down what it is called for.
use als_folder::{Folder, Found, Sizes};
use std::alloc::{Allocator, Global};
use std::fs::{Files, Metadata, OpenFile, OpenOptions};
use std::io;
use std::io::{Read, Seek, SeekFrom, Write};
use std::os::unix::fs::FileExt;
use std::process::Abort;
use std::sync::Arc;
use std::sync::atomic::{AtomicU64, Ordering};

/// The calls, as octal digits: a file is made anew, written, synced; the log, the pages or the
/// control block get their names; the folder is synced.
const MADE: u64 = 1;

const WRITTEN: u64 = 2;

const SYNCED: u64 = 3;

const LOG_NAMED: u64 = 4;

const PAGES_NAMED: u64 = 5;

const CONTROL_NAMED: u64 = 6;

const FOLDER_SYNCED: u64 = 7;

/// What was called, a digit for each call.
#[derive(Drop)]
struct Calls {
    digits: AtomicU64,
}

impl Calls {
    fn note(&self, digit: u64) {
        let before = self.digits.load(Ordering::SeqCst);
        self.digits.store(before.wrapping_mul(8).wrapping_add(digit), Ordering::SeqCst);
    }

    /// The calls since it was asked last.
    fn taken(&self) -> u64 {
        self.digits.swap(0, Ordering::SeqCst)
    }
}

/// A file of it, or the folder.
#[derive(Drop)]
struct NotedFile {
    is_folder: bool,
    calls: Arc<Calls>,
}

impl OpenFile for NotedFile {
    fn metadata(&self) -> io::Result<Metadata> {
        Ok(Metadata::of_file(512))
    }

    fn set_len(&self, _size: u64) -> io::Result<()> {
        Ok(())
    }

    fn sync_all(&self) -> io::Result<()> {
        self.calls.note(if self.is_folder {
            FOLDER_SYNCED
        } else {
            SYNCED
        });
        Ok(())
    }

    fn sync_data(&self) -> io::Result<()> {
        self.calls.note(SYNCED);
        Ok(())
    }
}

impl FileExt for NotedFile {
    fn read_at(&self, buf: &mut [u8], _offset: u64) -> io::Result<usize> {
        buf.fill(0);
        Ok(buf.len())
    }

    fn write_at(&self, buf: &[u8], _offset: u64) -> io::Result<usize> {
        self.calls.note(WRITTEN);
        Ok(buf.len())
    }
}

impl Read for NotedFile {
    fn read(&mut self, _buf: &mut [u8]) -> io::Result<usize> {
        Ok(0)
    }
}

impl Write for NotedFile {
    fn write(&mut self, _buf: &[u8]) -> io::Result<usize> {
        Ok(0)
    }

    fn flush(&mut self) -> io::Result<()> {
        Ok(())
    }
}

impl Seek for NotedFile {
    fn seek(&mut self, _to: SeekFrom) -> io::Result<u64> {
        Ok(0)
    }
}

/// The file system: of its files only those are there that were given their names.
#[derive(Drop)]
struct NotedFiles {
    calls: Arc<Calls>,
}

impl NotedFiles {
    fn file(&self, is_folder: bool) -> io::Result<NotedFile> {
        match self.calls.clone() {
            Ok(calls) => Ok(NotedFile { is_folder, calls }),
            Err(_) => Err(io::ErrorKind::OutOfMemory.into()),
        }
    }
}

impl Files for NotedFiles {
    type File = NotedFile;

    type Dir = io::Empty;

    fn open_file(&self, how: &OpenOptions, _path: &str) -> io::Result<NotedFile> {
        if how.asks_create_new() {
            self.calls.note(MADE);
        }
        self.file(false)
    }

    fn open_dir(&self, _path: &str) -> io::Result<io::Empty> {
        Ok(io::empty())
    }

    fn metadata(&self, _path: &str) -> io::Result<Metadata> {
        Err(io::ErrorKind::NotFound.into())
    }

    fn symlink_metadata(&self, _path: &str) -> io::Result<Metadata> {
        Err(io::ErrorKind::NotFound.into())
    }

    fn copy(&self, _from: &str, _to: &str) -> io::Result<u64> {
        Ok(0)
    }

    fn rename(&self, from: &str, to: &str) -> io::Result<()> {
        let digit = match (from, to) {
            ("db/log.new", "db/log.blk") => LOG_NAMED,
            ("db/pages.new", "db/pages.blk") => PAGES_NAMED,
            ("db/control.new", "db/control.blk") => CONTROL_NAMED,
            _ => 0,
        };
        self.calls.note(digit);
        Ok(())
    }

    fn remove_file(&self, _path: &str) -> io::Result<()> {
        Err(io::ErrorKind::NotFound.into())
    }

    fn create_dir(&self, _path: &str) -> io::Result<()> {
        Ok(())
    }

    fn remove_dir(&self, _path: &str) -> io::Result<()> {
        Ok(())
    }

    fn remove_dir_all<B: Allocator>(&self, _alloc: B, _path: &str) -> io::Result<()> {
        Ok(())
    }
}

const SIZES: Sizes = Sizes {
    log: 3,
    control: 2,
    pages: 1,
};

/// A database is laid out and kept, and opened. `None`: allocation failed.
fn calls_in_order(rt: &impl Abort, alloc: Global) -> Option<()> {
    let digits = AtomicU64::new(0);
    let calls = Arc::new(alloc, Calls { digits }).ok()?;
    let files = NotedFiles {
        calls: calls.clone().ok()?,
    };
    let folder = Folder::over(alloc, "db", files.file(true).ok()?).ok()?;
    let files = (files, alloc);
    let devices = match folder.find(&files) {
        Ok(Found::Vacant(vacancy)) => vacancy.lay_out(&files, SIZES).ok()?,
        Ok(Found::Kept) | Err(_) => return None,
    };
    drop(devices);
    // Each file is made, its zeros are written and synced.
    assert!(rt; calls.taken() == 0o123_123_123);
    folder.keep(&files).ok()?;
    // The control block gets its name last.
    assert!(rt; calls.taken() == 0o45767);
    let devices = folder.open(&files).ok()?;
    drop(devices);
    // The names are synced first.
    assert!(rt; calls.taken() == 0o7333);
    let control = folder.open_control(&files).ok()?;
    let devices = folder.open_beside(&files, control, 16).ok()?;
    drop(devices);
    assert!(rt; calls.taken() == 0o7333);
    Some(())
}

#[test]
fn files_are_called_in_order(rt: HostRuntime) {
    let alloc = rt.alloc();
    assert!(rt; calls_in_order(&rt, alloc).is_some() || calls_in_order(&rt, alloc).is_some());
}
