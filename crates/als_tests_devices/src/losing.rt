use als_disk::{BlockDisk, DeviceError, Failure, FileDisk, FirstError};
use std::fs::{self, File, OpenOptions};
use std::process::Abort;
use std::rt::Files;

/// A new device of three blocks, of which the last one was written and synced, and the note of its
/// first failure. `None`: allocation failed.
fn made<R: AllocGlobal + Files<File = File>>(rt: &R, path: &str) -> Option<(FileDisk, FirstError)> {
    let note = FirstError::new(rt.alloc()).ok()?;
    let mut disk = FileDisk::create(rt, path, 3, note.clone().ok()?).ok()?;
    write_last(&mut disk)?;
    if disk.sync().is_err() {
        return None;
    }
    Some((disk, note))
}

/// Writes the last of three blocks. `None`: allocation failed.
fn write_last<D: BlockDisk>(disk: &mut D) -> Option<()> {
    if disk.blocks() != 3 {
        return None;
    }
    disk.write(2, &[7; 512]).ok()
}

/// A sync takes nothing more, for this reason, and neither does any later call.
fn expect_failure<D: BlockDisk>(rt: &impl Abort, disk: &mut D, note: &FirstError, why: Failure) {
    assert!(rt; note.failure().is_none());
    assert!(rt; disk.sync() == Err(DeviceError));
    assert!(rt; note.failure() == Some(why));
    assert!(rt; disk.sync() == Err(DeviceError));
    assert!(rt; write_last(disk).is_none());
    assert!(rt; note.failure() == Some(why));
}

/// A file that is removed while its device is open. `None`: allocation failed.
fn is_removed<R: Abort + AllocGlobal + Files<File = File>>(rt: &R) -> Option<()> {
    let path = "removed.blk";
    let (mut disk, note) = made(rt, path)?;
    fs::remove_file(rt, path).ok()?;
    write_last(&mut disk)?;
    expect_failure(rt, &mut disk, &note, Failure::Removed);
    Some(())
}

#[test]
fn a_removed_file_fails_a_sync(rt: HostRuntime) {
    assert!(rt; is_removed(&rt).is_some() || is_removed(&rt).is_some());
}

/// Another file takes the name of one whose device is open. `None`: allocation failed.
fn is_replaced<R: Abort + AllocGlobal + Files<File = File>>(rt: &R) -> Option<()> {
    let path = "replaced.blk";
    let (mut disk, note) = made(rt, path)?;
    fs::write(rt, "other.blk", [0; 1536].as_slice()).ok()?;
    fs::rename(rt, "other.blk", path).ok()?;
    expect_failure(rt, &mut disk, &note, Failure::Removed);
    drop(disk);
    fs::remove_file(rt, path).ok()
}

#[test]
fn a_replaced_file_fails_a_sync(rt: HostRuntime) {
    assert!(rt; is_replaced(&rt).is_some() || is_replaced(&rt).is_some());
}

/// A file of which somebody noted that its path names another one now. `None`: allocation failed.
fn is_noted<R: Abort + AllocGlobal + Files<File = File>>(rt: &R) -> Option<()> {
    let path = "noted.blk";
    let (mut disk, note) = made(rt, path)?;
    write_last(&mut disk)?;
    note.note_removed();
    assert!(rt; disk.sync() == Err(DeviceError));
    assert!(rt; note.failure() == Some(Failure::Removed));
    assert!(rt; disk.sync() == Err(DeviceError));
    assert!(rt; write_last(&mut disk).is_none());
    drop(disk);
    fs::remove_file(rt, path).ok()
}

#[test]
fn a_noted_file_fails_a_sync(rt: HostRuntime) {
    assert!(rt; is_noted(&rt).is_some() || is_noted(&rt).is_some());
}

/// A file that is cut while its device is open. `None`: allocation failed.
fn is_cut<R: Abort + AllocGlobal + Files<File = File>>(rt: &R) -> Option<()> {
    let path = "cut.blk";
    let (mut disk, note) = made(rt, path)?;
    let file = OpenOptions::new().write(true).open(rt, path).ok()?;
    file.set_len(1535).ok()?;
    expect_failure(rt, &mut disk, &note, Failure::Cut { bytes: 1535 });
    drop(disk);
    fs::remove_file(rt, path).ok()
}

#[test]
fn a_cut_file_fails_a_sync(rt: HostRuntime) {
    assert!(rt; is_cut(&rt).is_some() || is_cut(&rt).is_some());
}

/// A device is written and synced.
fn expect_sync<D: BlockDisk>(rt: &impl Abort, disk: &mut D) -> Option<()> {
    write_last(disk)?;
    assert!(rt; disk.sync() == Ok(()));
    Some(())
}

/// A file that gets another name, and then loses its first one, is the same file: a device over it
/// goes on, also behind an opening. One that grows is no failure either. `None`: allocation failed.
fn is_linked<R: Abort + AllocGlobal + Files<File = File>>(rt: &R) -> Option<()> {
    let (path, link) = ("linked.blk", "link.blk");
    let (mut disk, note) = made(rt, path)?;
    fs::hard_link(rt, path, link).ok()?;
    expect_sync(rt, &mut disk)?;
    fs::remove_file(rt, path).ok()?;
    expect_sync(rt, &mut disk)?;
    let file = OpenOptions::new().write(true).open(rt, link).ok()?;
    file.set_len(4096).ok()?;
    expect_sync(rt, &mut disk)?;
    assert!(rt; note.failure().is_none());
    drop(disk);
    fs::remove_file(rt, link).ok()
}

#[test]
fn a_linked_file_is_no_failure(rt: HostRuntime) {
    assert!(rt; is_linked(&rt).is_some() || is_linked(&rt).is_some());
}
