use als_disk::{BlockDisk, DeviceError, FileDisk, FirstError};
use std::alloc::Global;
use std::fs::{Metadata, OpenFile};
use std::io;
use std::os::unix::fs::FileExt;
use std::process::Abort;
use std::sync::Arc;
use std::sync::atomic::{AtomicU64, Ordering};

/// A read, a write, a sync of the data and one of the whole file, as digits.
const READ: u64 = 1;

const WRITE: u64 = 2;

const SYNC_DATA: u64 = 3;

const SYNC_ALL: u64 = 4;

/// What a file was called for, a digit for each call, and the last offset and first byte written.
#[derive(Drop)]
struct Seen {
    calls: AtomicU64,
    offset: AtomicU64,
    byte: AtomicU64,
    fails: AtomicU64,
}

impl Seen {
    /// Nothing yet. The call of this digit fails.
    fn new(alloc: Global, fails: u64) -> Option<Arc<Seen>> {
        Arc::new(
            alloc,
            Seen {
                calls: AtomicU64::new(0),
                offset: AtomicU64::new(0),
                byte: AtomicU64::new(0),
                fails: AtomicU64::new(fails),
            },
        )
        .ok()
    }

    fn note(&self, digit: u64) -> io::Result<()> {
        let before = self.calls.load(Ordering::SeqCst);
        self.calls.store(before.wrapping_mul(8).wrapping_add(digit), Ordering::SeqCst);
        if self.fails.load(Ordering::SeqCst) == digit {
            // EIO.
            return Err(io::Error::from_raw_os_error(5));
        }
        Ok(())
    }

    /// The calls since it was asked last.
    fn calls(&self) -> u64 {
        self.calls.swap(0, Ordering::SeqCst)
    }

    fn offset(&self) -> u64 {
        self.offset.load(Ordering::SeqCst)
    }

    fn byte(&self) -> u64 {
        self.byte.load(Ordering::SeqCst)
    }
}

/// A file in which each block begins with a 7, but for those of a hole behind its first piece.
#[derive(Drop)]
struct SeenFile {
    blocks: u64,
    seen: Arc<Seen>,
}

impl OpenFile for SeenFile {
    fn metadata(&self) -> io::Result<Metadata> {
        Ok(Metadata::of_file(self.blocks.saturating_mul(512)))
    }

    fn set_len(&self, _size: u64) -> io::Result<()> {
        self.seen.note(0)
    }

    fn sync_all(&self) -> io::Result<()> {
        self.seen.note(SYNC_ALL)
    }

    fn sync_data(&self) -> io::Result<()> {
        self.seen.note(SYNC_DATA)
    }
}

impl FileExt for SeenFile {
    fn read_at(&self, buf: &mut [u8], offset: u64) -> io::Result<usize> {
        self.seen.note(READ)?;
        buf.fill(0);
        if offset < 2048 * 512 {
            if let Some(byte) = buf.first_mut() {
                *byte = 7;
            }
        }
        Ok(buf.len())
    }

    fn write_at(&self, buf: &[u8], offset: u64) -> io::Result<usize> {
        self.seen.note(WRITE)?;
        self.seen.offset.store(offset, Ordering::SeqCst);
        let byte = buf.first().copied().unwrap_or(0);
        self.seen.byte.store(u64::from(byte), Ordering::SeqCst);
        Ok(buf.len())
    }
}

/// A device over such a file.
fn device(alloc: Global, blocks: u64, seen: &Arc<Seen>) -> Option<FileDisk<SeenFile>> {
    let file = SeenFile {
        blocks,
        seen: seen.clone().ok()?,
    };
    FileDisk::over(alloc, file, FirstError::new(alloc).ok()?).ok()
}

/// An opening reads each piece, writes back the one that is not zeros, and then syncs. `None`:
/// allocation failed.
fn opens_in_pieces(rt: &impl Abort, alloc: Global) -> Option<()> {
    let seen = Seen::new(alloc, 8)?;
    let disk = device(alloc, 2048 + 1, &seen)?;
    drop(disk);
    assert!(rt; seen.calls() == 0o1214);
    assert!(rt; seen.offset() == 0 && seen.byte() == 7);
    Some(())
}

#[test]
fn an_opening_writes_back_what_it_read(rt: HostRuntime) {
    let alloc = rt.alloc();
    assert!(rt; opens_in_pieces(&rt, alloc).is_some() || opens_in_pieces(&rt, alloc).is_some());
}

/// An opening below a mark of so many bytes makes these calls, and writes nothing back but the piece
/// from this offset on. `None`: allocation failed.
fn opens_below(rt: &impl Abort, alloc: Global, bytes: u64, calls: u64, offset: u64) -> Option<()> {
    let seen = Seen::new(alloc, 8)?;
    let file = SeenFile {
        blocks: 2048 + 2,
        seen: seen.clone().ok()?,
    };
    seen.offset.store(1, Ordering::SeqCst);
    let disk = FileDisk::over_below(alloc, file, FirstError::new(alloc).ok()?, bytes).ok()?;
    assert!(rt; disk.blocks() == 2048 + 2);
    drop(disk);
    assert!(rt; seen.calls() == calls, "{bytes}");
    assert!(rt; seen.offset() == offset, "{bytes}");
    Some(())
}

/// What is read and written of a file below marks of several lengths. An offset of 1: nothing is
/// written. `None`: allocation failed.
fn opens_below_marks(rt: &impl Abort, alloc: Global) -> Option<()> {
    // No block; one block; the whole first piece, of which the last block is written back with it.
    opens_below(rt, alloc, 0, 0o4, 1)?;
    opens_below(rt, alloc, 1, 0o124, 0)?;
    opens_below(rt, alloc, 2048 * 512, 0o124, 0)?;
    // A block behind it, which is zeros: the first piece lies below the last block.
    opens_below(rt, alloc, 2048 * 512 + 1, 0o114, 1)?;
    // A mark past the end of the file.
    opens_below(rt, alloc, u64::MAX, 0o114, 1)
}

#[test]
fn an_opening_reads_below_its_mark(rt: HostRuntime) {
    let alloc = rt.alloc();
    assert!(rt; opens_below_marks(&rt, alloc).is_some() || opens_below_marks(&rt, alloc).is_some());
}

/// The first byte of a block. `None`: it can't be read.
fn first_of<D: BlockDisk>(disk: &mut D, i: u64) -> Option<u8> {
    if disk.blocks() <= i {
        return None;
    }
    let mut block = [1; 512];
    disk.read(i, &mut block).ok()?;
    Some(block[0])
}

/// What a file holds above the mark is not seen: each block there is zeros. `None`: allocation
/// failed.
fn sees_no_garbage(rt: &impl Abort, alloc: Global) -> Option<()> {
    let seen = Seen::new(alloc, 8)?;
    let file = SeenFile {
        blocks: 4,
        seen: seen.clone().ok()?,
    };
    let note = FirstError::new(alloc).ok()?;
    let mut disk = FileDisk::over_below(alloc, file, note, 3).ok()?;
    assert!(rt; first_of(&mut disk, 0) == Some(7));
    assert!(rt; first_of(&mut disk, 1) == Some(0) && first_of(&mut disk, 3) == Some(0));
    Some(())
}

#[test]
fn what_lies_above_a_mark_is_zeros(rt: HostRuntime) {
    let alloc = rt.alloc();
    assert!(rt; sees_no_garbage(&rt, alloc).is_some() || sees_no_garbage(&rt, alloc).is_some());
}

/// Blocks that are written in a row reach the file by one write at the first one's place, once a sync
/// asks for it, and the sync follows. `None`: allocation failed.
fn reaches_the_file<D: BlockDisk>(rt: &impl Abort, disk: &mut D, seen: &Seen) -> Option<()> {
    assert!(rt; disk.blocks() == 3);
    let _ = seen.calls();
    disk.write(1, &[9; 512]).ok()?;
    assert!(rt; disk.blocks() == 3);
    disk.write(2, &[8; 512]).ok()?;
    let mut block = [0; 512];
    assert!(rt; disk.blocks() == 3);
    disk.read(2, &mut block).ok()?;
    assert!(rt; block[0] == 8 && seen.calls() == 0);
    assert!(rt; disk.sync() == Ok(()));
    assert!(rt; seen.calls() == 8 * WRITE + SYNC_DATA);
    assert!(rt; seen.offset() == 512 && seen.byte() == 9);
    Some(())
}

/// The same over a file that is seen.
fn is_called(rt: &impl Abort, alloc: Global) -> Option<()> {
    let seen = Seen::new(alloc, 8)?;
    let mut disk = device(alloc, 3, &seen)?;
    reaches_the_file(rt, &mut disk, &seen)
}

#[test]
fn a_file_is_written_and_synced(rt: HostRuntime) {
    assert!(rt; is_called(&rt, rt.alloc()).is_some() || is_called(&rt, rt.alloc()).is_some());
}

/// A sync that fails is answered so, and no call reaches the file from then on. `None`: memory was
/// refused.
fn fails_with_its_file(rt: &impl Abort, alloc: Global) -> Option<()> {
    let seen = Seen::new(alloc, SYNC_DATA)?;
    let mut disk = device(alloc, 1, &seen)?;
    let _ = seen.calls();
    assert!(rt; disk.sync() == Err(DeviceError));
    assert!(rt; disk.blocks() == 1);
    assert!(rt; disk.write(0, &[1; 512]) == Err(DeviceError));
    assert!(rt; disk.sync() == Err(DeviceError));
    assert!(rt; seen.calls() == SYNC_DATA);
    Some(())
}

#[test]
fn a_sync_that_fails_is_answered(rt: HostRuntime) {
    let alloc = rt.alloc();
    assert!(rt;
        fails_with_its_file(&rt, alloc).is_some() || fails_with_its_file(&rt, alloc).is_some()
    );
}
