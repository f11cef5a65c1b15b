// The names of a folder's files while its devices are open.
use super::{SIZES, vacancy};
use als_disk::BlockDisk;
use als_folder::{Folder, Part, Trouble, Wrong};
use std::fs;
use std::fs::File;
use std::process::Abort;
use std::rt::Files;

/// A file that lost its name to another one, or has none.
fn removed(part: Part) -> Option<Trouble> {
    Some(Trouble {
        part,
        wrong: Wrong::Removed,
    })
}

/// A look at the names fails the next sync of the device whose path leads elsewhere, and no other's.
/// `None`: allocation failed.
fn is_moved<R: Abort + AllocGlobal + Files<File = File>>(rt: &R) -> Option<()> {
    let folder = Folder::hold(rt, "moved").ok()?;
    let names = folder.names(rt).ok()?;
    // Nothing is there: nothing is known.
    names.look_now(rt);
    let mut devices = vacancy(rt, &folder)?.lay_out(rt, SIZES).ok()?;
    folder.keep(rt).ok()?;
    names.look_now(rt);
    fs::hard_link(rt, "moved/log.blk", "moved/second").ok()?;
    names.look_now(rt);
    assert!(rt; devices.log.sync().is_ok() && folder.trouble().is_none());
    fs::rename(rt, "moved/log.blk", "moved/elsewhere").ok()?;
    fs::copy(rt, "moved/elsewhere", "moved/log.blk").ok()?;
    assert!(rt; devices.log.sync().is_ok());
    names.look_now(rt);
    assert!(rt; devices.log.sync().is_err());
    assert!(rt; folder.trouble() == removed(Part::Log));
    assert!(rt; devices.control.sync().is_ok() && devices.pages.sync().is_ok());
    Some(())
}

/// So does one that has no file at its path any more, though it has another name. `None`: allocation
/// failed.
fn is_missed<R: Abort + AllocGlobal + Files<File = File>>(rt: &R) -> Option<()> {
    let folder = Folder::hold(rt, "moved").ok()?;
    let mut devices = folder.open(rt).ok()?;
    let names = folder.names(rt).ok()?;
    assert!(rt; !names.look_now(rt));
    fs::rename(rt, "moved/pages.blk", "moved/pages").ok()?;
    assert!(rt; names.look_now(rt));
    assert!(rt; devices.pages.sync().is_err());
    assert!(rt; folder.trouble() == removed(Part::Pages));
    assert!(rt; devices.control.sync().is_ok() && devices.log.sync().is_ok());
    Some(())
}

/// So does what was moved before the first look: the files are those of when the folder was taken. `None`:
/// allocation failed.
fn is_moved_early<R: Abort + AllocGlobal + Files<File = File>>(rt: &R) -> Option<()> {
    fs::rename(rt, "moved/pages", "moved/pages.blk").ok()?;
    let folder = Folder::hold(rt, "moved").ok()?;
    let mut devices = folder.open(rt).ok()?;
    fs::rename(rt, "moved/control.blk", "moved/control").ok()?;
    fs::copy(rt, "moved/control", "moved/control.blk").ok()?;
    let names = folder.names(rt).ok()?;
    assert!(rt; names.look_now(rt));
    assert!(rt; devices.control.sync().is_err());
    assert!(rt; folder.trouble() == removed(Part::Control));
    Some(())
}

/// The same in a folder of its own.
fn is_moved_anew<R: Abort + AllocGlobal + Files<File = File>>(rt: &R) -> Option<()> {
    fs::create_dir(rt, "moved").ok()?;
    let outcome = is_moved(rt)
        .and_then(|()| is_missed(rt))
        .and_then(|()| is_moved_early(rt));
    fs::remove_dir_all(rt, "moved").ok()?;
    outcome
}

#[test]
fn a_moved_file_is_noticed(rt: HostRuntime) {
    assert!(rt; is_moved_anew(&rt).is_some() || is_moved_anew(&rt).is_some());
}
