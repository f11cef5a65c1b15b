use als_disk::{BlockDisk, FileDisk, FirstError};
use std::alloc::Global;
use std::fs::{Metadata, OpenFile};
use std::io;
use std::os::unix::fs::FileExt;
use std::process::Abort;
use std::sync::Arc;
use std::sync::atomic::{AtomicU64, Ordering};

/// The blocks of a device of three pieces of 64 KiB.
const BLOCKS: u64 = 3 * 128;

/// What a file was given: the first byte of each of its blocks, and how many writes it took.
#[derive(Drop)]
struct Given {
    firsts: Vec<AtomicU64>,
    writes: AtomicU64,
}

impl Given {
    /// Zeros, and no write.
    fn new(alloc: Global) -> Option<Arc<Given>> {
        let mut firsts = Vec::new(alloc);
        for _ in 0..BLOCKS {
            firsts.push(AtomicU64::new(0)).ok()?;
        }
        let writes = AtomicU64::new(0);
        Arc::new(alloc, Given { firsts, writes }).ok()
    }

    /// Takes one write.
    fn take(&self, bytes: &[u8], offset: u64) {
        let before = self.writes.load(Ordering::SeqCst);
        self.writes.store(before.wrapping_add(1), Ordering::SeqCst);
        let mut at = (offset / 512) as usize;
        for block in bytes.chunks(512) {
            if let (Some(first), Some(byte)) = (self.firsts.get(at), block.first()) {
                first.store(u64::from(*byte), Ordering::SeqCst);
            }
            at = at.saturating_add(1);
        }
    }

    /// The writes since it was asked last.
    fn writes(&self) -> u64 {
        self.writes.swap(0, Ordering::SeqCst)
    }

    /// The first byte of a block.
    fn first(&self, i: u64) -> u64 {
        match self.firsts.get(i as usize) {
            Some(first) => first.load(Ordering::SeqCst),
            None => 256,
        }
    }
}

/// A file that keeps what it is given.
#[derive(Drop)]
struct GivenFile {
    given: Arc<Given>,
}

impl OpenFile for GivenFile {
    fn metadata(&self) -> io::Result<Metadata> {
        Ok(Metadata::of_file(BLOCKS * 512))
    }

    fn set_len(&self, _size: u64) -> io::Result<()> {
        Ok(())
    }

    fn sync_all(&self) -> io::Result<()> {
        Ok(())
    }

    fn sync_data(&self) -> io::Result<()> {
        Ok(())
    }
}

impl FileExt for GivenFile {
    fn read_at(&self, buf: &mut [u8], _offset: u64) -> io::Result<usize> {
        buf.fill(0);
        Ok(buf.len())
    }

    fn write_at(&self, buf: &[u8], offset: u64) -> io::Result<usize> {
        self.given.take(buf, offset);
        Ok(buf.len())
    }
}

/// A device over such a file of zeros.
fn device(alloc: Global, given: &Arc<Given>) -> Option<FileDisk<GivenFile>> {
    let file = GivenFile {
        given: given.clone().ok()?,
    };
    FileDisk::over(alloc, file, FirstError::new(alloc).ok()?).ok()
}

/// These blocks are written one after another, with 1, 2, 3 and so on. `None`: allocation failed.
fn write_all<D: BlockDisk>(rt: &impl Abort, disk: &mut D, blocks: &[u64]) -> Option<()> {
    let mut byte = 0_u8;
    for block in blocks {
        let i = *block;
        byte = byte.wrapping_add(1);
        assert!(rt; disk.blocks() == BLOCKS && i < BLOCKS);
        disk.write(i, &[byte; 512]).ok()?;
    }
    Some(())
}

/// Each block of the file is what the device reads.
fn expect_same<D: BlockDisk>(rt: &impl Abort, disk: &mut D, given: &Given) {
    let mut block = [0; 512];
    for i in 0..BLOCKS {
        assert!(rt; disk.blocks() == BLOCKS);
        assert!(rt; disk.read(i, &mut block) == Ok(()));
        assert!(rt; given.first(i) == u64::from(block[0]));
    }
}

/// These blocks reach the file by so many writes, once a sync asks for them. `None`: allocation
/// failed.
fn gathers<D: BlockDisk>(
    rt: &impl Abort,
    disk: &mut D,
    given: &Given,
    blocks: &[u64],
    writes: u64,
) -> Option<()> {
    write_all(rt, disk, blocks)?;
    assert!(rt; disk.sync() == Ok(()));
    assert!(rt; given.writes() == writes);
    expect_same(rt, disk, given);
    Some(())
}

/// Rows of blocks, each by one write in each piece. `None`: allocation failed.
fn gathers_rows(rt: &impl Abort, alloc: Global) -> Option<()> {
    let given = Given::new(alloc)?;
    let mut disk = device(alloc, &given)?;
    assert!(rt; given.writes() == 0);
    let disk = &mut disk;
    // One row; one across the end of a piece.
    gathers(rt, disk, &given, &[3, 4, 5], 1)?;
    gathers(rt, disk, &given, &[126, 127, 128, 129], 2)?;
    // No row: apart, falling, the same block again.
    gathers(rt, disk, &given, &[5, 3, 9], 3)?;
    gathers(rt, disk, &given, &[202, 201, 200], 3)?;
    gathers(rt, disk, &given, &[7, 7], 2)?;
    // A block of a row again, and the row goes on from there.
    gathers(rt, disk, &given, &[10, 11, 12, 11, 12, 13], 2)?;
    // The last block, and nothing.
    gathers(rt, disk, &given, &[382, 383], 1)?;
    gathers(rt, disk, &given, &[], 0)
}

#[test]
fn a_row_of_blocks_is_one_write(rt: HostRuntime) {
    let alloc = rt.alloc();
    assert!(rt; gathers_rows(&rt, alloc).is_some() || gathers_rows(&rt, alloc).is_some());
}

/// A block that is forgotten reaches the file at once. `None`: allocation failed.
fn forgotten_goes_at_once(rt: &impl Abort, alloc: Global) -> Option<()> {
    let given = Given::new(alloc)?;
    let mut disk = device(alloc, &given)?;
    disk.forget_old(0);
    write_all(rt, &mut disk, &[256])?;
    assert!(rt; disk.sync() == Ok(()));
    assert!(rt; given.writes() == 1);
    write_all(rt, &mut disk, &[3, 257])?;
    assert!(rt; given.writes() == 1 && given.first(3) == 1 && given.first(257) == 0);
    assert!(rt; disk.sync() == Ok(()));
    assert!(rt; given.writes() == 1 && given.first(257) == 2);
    Some(())
}

#[test]
fn a_forgotten_block_is_written_at_once(rt: HostRuntime) {
    let alloc = rt.alloc();
    assert!(rt;
        forgotten_goes_at_once(&rt, alloc).is_some() || forgotten_goes_at_once(&rt, alloc).is_some()
    );
}
