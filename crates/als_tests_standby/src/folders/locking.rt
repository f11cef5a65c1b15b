// Two folders with names of one file: one of them is held at a time.
use super::{SIZES, vacancy};
use als_folder::{Fault, Folder, Part, Trouble, Wrong};
use std::fs;
use std::fs::File;
use std::os::unix::fs::symlink;
use std::process::Abort;
use std::rt::Files;

/// Another program has the control block's file.
const LOCKED: Fault = Fault::Device(Trouble {
    part: Part::Control,
    wrong: Wrong::Locked,
});

/// Whether a call is refused so, or for want of memory.
fn tells(refused: Option<Fault>) -> bool {
    refused == Some(LOCKED) || refused == Some(Fault::Memory)
}

/// One folder is held alone, and both are held to read. `None`: allocation failed.
fn one_is_held<R: Abort + AllocGlobal + Files<File = File>>(rt: &R) -> Option<()> {
    let first = Folder::hold(rt, "first").ok()?;
    assert!(rt; tells(Folder::hold(rt, "second").err()));
    assert!(rt; tells(Folder::hold_to_read(rt, "second").err()));
    drop(first);
    let first = Folder::hold_to_read(rt, "first").ok()?;
    let second = Folder::hold_to_read(rt, "second").ok()?;
    assert!(rt; first.trouble().is_none() && second.trouble().is_none());
    drop(first);
    drop(second);
    Some(())
}

/// The same with a link in folders of its own.
fn is_locked<R: Abort + AllocGlobal + Files<File = File>>(rt: &R) -> Option<()> {
    fs::create_dir(rt, "first").ok()?;
    fs::create_dir(rt, "second").ok()?;
    fs::write(rt, "first/control.blk", "data").ok()?;
    symlink(rt, "../first/control.blk", "second/control.blk").ok()?;
    let outcome = one_is_held(rt);
    fs::remove_dir_all(rt, "first").ok()?;
    fs::remove_dir_all(rt, "second").ok()?;
    outcome
}

/// A database is laid out in one folder, its files are locked, and then another one gets a name of
/// one of them. `None`: allocation failed.
fn new_one_is_locked<R: Abort + AllocGlobal + Files<File = File>>(rt: &R) -> Option<()> {
    let folder = Folder::hold(rt, "new first").ok()?;
    let devices = vacancy(rt, &folder)?.lay_out(rt, SIZES).ok()?;
    devices.lock_new().ok()?;
    folder.keep(rt).ok()?;
    fs::hard_link(rt, "new first/control.blk", "new second/control.blk").ok()?;
    assert!(rt; tells(Folder::hold(rt, "new second").err()));
    drop(devices);
    Some(())
}

/// The same in folders of its own.
fn new_files_are_locked<R: Abort + AllocGlobal + Files<File = File>>(rt: &R) -> Option<()> {
    fs::create_dir(rt, "new first").ok()?;
    fs::create_dir(rt, "new second").ok()?;
    let outcome = new_one_is_locked(rt);
    fs::remove_dir_all(rt, "new first").ok()?;
    fs::remove_dir_all(rt, "new second").ok()?;
    outcome
}

#[test]
fn new_files_with_names_in_two_folders(rt: HostRuntime) {
    assert!(rt; new_files_are_locked(&rt).is_some() || new_files_are_locked(&rt).is_some());
}

#[test]
fn a_file_with_names_in_two_folders(rt: HostRuntime) {
    assert!(rt; is_locked(&rt).is_some() || is_locked(&rt).is_some());
}
