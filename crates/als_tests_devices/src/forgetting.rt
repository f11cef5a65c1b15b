use als_disk::{BlockDisk, DeviceError, FileDisk, FirstError};
use std::alloc::Global;
use std::fs::{Metadata, OpenFile};
use std::io;
use std::os::unix::fs::FileExt;
use std::process::Abort;

/// The blocks of a device of 20 pieces of 64 KiB.
const BLOCKS: u64 = 20 * 128;

/// A file of zeros that takes each call.
#[derive(Drop)]
struct Zeros;

impl OpenFile for Zeros {
    fn metadata(&self) -> io::Result<Metadata> {
        Ok(Metadata::of_file(BLOCKS * 512))
    }

    fn set_len(&self, _size: u64) -> io::Result<()> {
        Ok(())
    }

    fn sync_all(&self) -> io::Result<()> {
        Ok(())
    }

    fn sync_data(&self) -> io::Result<()> {
        Ok(())
    }
}

impl FileExt for Zeros {
    fn read_at(&self, buf: &mut [u8], _offset: u64) -> io::Result<usize> {
        buf.fill(0);
        Ok(buf.len())
    }

    fn write_at(&self, buf: &[u8], _offset: u64) -> io::Result<usize> {
        Ok(buf.len())
    }
}

/// The first block of each piece is written, in rising order, and the device is synced each time. It
/// never keeps more than three pieces then, and one more before. `None`: allocation failed.
fn fill(rt: &impl Abort, disk: &mut FileDisk<Zeros>) -> Option<()> {
    for piece in 0..20_u8 {
        assert!(rt; disk.blocks() == BLOCKS);
        disk.write(u64::from(piece) * 128, &[piece + 1; 512]).ok()?;
        assert!(rt; disk.kept_pieces() <= 4);
        assert!(rt; disk.sync() == Ok(()));
        assert!(rt; disk.kept_pieces() <= 3);
    }
    assert!(rt; disk.kept_pieces() == 3);
    Some(())
}

/// The blocks of the last three pieces are read, and those in front of them are not.
fn expect_the_newest(rt: &impl Abort, disk: &mut FileDisk<Zeros>) {
    let mut block = [0; 512];
    for (piece, byte) in [(19, 20), (18, 19), (17, 18)] {
        assert!(rt; disk.blocks() == BLOCKS);
        assert!(rt; disk.read(piece * 128, &mut block) == Ok(()));
        assert!(rt; block[0] == byte);
    }
    for piece in [16, 1, 0] {
        assert!(rt; disk.blocks() == BLOCKS);
        assert!(rt; disk.read(piece * 128, &mut block) == Err(DeviceError));
        assert!(rt; block[0] == 18);
    }
}

/// A device that keeps a piece and two in front of it takes no more memory the longer it is written.
/// A read of a block that it forgot fails, and the device goes on. `None`: allocation failed.
fn forgets(rt: &impl Abort, alloc: Global) -> Option<()> {
    let mut disk = FileDisk::over(alloc, Zeros, FirstError::new(alloc).ok()?).ok()?;
    disk.forget_old(2);
    fill(rt, &mut disk)?;
    expect_the_newest(rt, &mut disk);
    assert!(rt; disk.blocks() == BLOCKS);
    assert!(rt; disk.write(0, &[9; 512]) == Ok(()));
    assert!(rt; disk.sync() == Ok(()));
    assert!(rt; disk.kept_pieces() == 3);
    expect_the_newest(rt, &mut disk);
    Some(())
}

#[test]
fn a_device_forgets_old_blocks(rt: HostRuntime) {
    let alloc = rt.alloc();
    assert!(rt; forgets(&rt, alloc).is_some() || forgets(&rt, alloc).is_some());
}

/// Without it, a device keeps each piece that is not zeros. `None`: allocation failed.
fn keeps(rt: &impl Abort, alloc: Global) -> Option<()> {
    let mut disk = FileDisk::over(alloc, Zeros, FirstError::new(alloc).ok()?).ok()?;
    assert!(rt; disk.kept_pieces() == 0);
    for piece in 0..5_u8 {
        assert!(rt; disk.blocks() == BLOCKS);
        disk.write(u64::from(piece) * 128, &[7; 512]).ok()?;
        assert!(rt; disk.sync() == Ok(()));
    }
    assert!(rt; disk.kept_pieces() == 5);
    Some(())
}

#[test]
fn a_device_keeps_its_blocks(rt: HostRuntime) {
    let alloc = rt.alloc();
    assert!(rt; keeps(&rt, alloc).is_some() || keeps(&rt, alloc).is_some());
}
