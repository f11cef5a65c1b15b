// A folder of which a file was lost or put elsewhere: no layout takes its place.
use super::vacancy;
use als_folder::{Fault, Folder, Part, Sizes, Trouble, Wrong};
use std::fs;
use std::fs::File;
use std::os::unix::fs::symlink;
use std::process::Abort;
use std::rt::Files;

const SIZES: Sizes = Sizes {
    log: 1,
    control: 1,
    pages: 1,
};

/// A file that is not empty, beside no control block.
fn no_control(part: Part) -> Fault {
    Fault::Device(Trouble {
        part,
        wrong: Wrong::NoControl,
    })
}

/// Whether a call is refused so, or for want of memory.
fn tells(refused: Option<Fault>, wanted: Fault) -> bool {
    refused == Some(wanted) || refused == Some(Fault::Memory)
}

/// Neither asking nor keeping does more than refuse, and there is no place for a layout. `None`: allocation failed.
fn is_refused<R: Abort + AllocGlobal + Files<File = File>>(rt: &R, part: Part) -> Option<()> {
    let folder = Folder::hold(rt, "lost").ok()?;
    assert!(rt; tells(folder.is_kept(rt).err(), no_control(part)));
    assert!(rt; tells(folder.find(rt).err(), no_control(part)));
    assert!(rt; tells(folder.keep(rt).err(), no_control(part)));
    Some(())
}

/// A log or pages of more than an empty database stay as they are. `None`: allocation failed.
fn stays<R: Abort + AllocGlobal + Files<File = File>>(
    rt: &R,
    path: &str,
    part: Part,
    bytes: &[u8],
) -> Option<()> {
    fs::write(rt, path, bytes).ok()?;
    is_refused(rt, part)?;
    assert!(rt; fs::read(rt, path).ok()?.as_slice() == bytes);
    fs::remove_file(rt, path).ok()
}

/// So does a file behind a link. `None`: allocation failed.
fn stays_behind_a_link<R: Abort + AllocGlobal + Files<File = File>>(rt: &R) -> Option<()> {
    fs::write(rt, "elsewhere", "").ok()?;
    symlink(rt, "../elsewhere", "lost/log.blk").ok()?;
    is_refused(rt, Part::Log)?;
    fs::remove_file(rt, "lost/log.blk").ok()?;
    fs::remove_file(rt, "elsewhere").ok()
}

/// A control block that is a link which leads nowhere is refused. `None`: allocation failed.
fn is_no_database<R: Abort + AllocGlobal + Files<File = File>>(rt: &R) -> Option<()> {
    symlink(rt, "nowhere", "lost/control.blk").ok()?;
    let folder = Folder::hold(rt, "lost").ok()?;
    let missing = Fault::Device(Trouble {
        part: Part::Control,
        wrong: Wrong::Missing,
    });
    assert!(rt; tells(folder.is_kept(rt).err(), missing));
    assert!(rt; tells(folder.find(rt).err(), missing));
    assert!(rt; tells(folder.open(rt).err(), missing));
    drop(folder);
    fs::remove_file(rt, "lost/control.blk").ok()
}

/// The log of an empty database has its header alone, and what an earlier layout left is taken
/// away, the link and not what it leads to. `None`: allocation failed.
fn is_laid_out_again<R: Abort + AllocGlobal + Files<File = File>>(rt: &R) -> Option<()> {
    fs::write(rt, "lost/log.blk", b"ALSLOG01\0\0\0\x04\0\0\0\0\0\0\0\0").ok()?;
    fs::write(rt, "lost/pages.blk", [0; 512].as_slice()).ok()?;
    fs::write(rt, "lost/log.new", b"left").ok()?;
    fs::write(rt, "elsewhere", b"mine").ok()?;
    symlink(rt, "../elsewhere", "lost/pages.new").ok()?;
    let folder = Folder::hold(rt, "lost").ok()?;
    drop(vacancy(rt, &folder)?.lay_out(rt, SIZES).ok()?);
    folder.keep(rt).ok()?;
    assert!(rt; fs::metadata(rt, "lost/log.blk").ok()?.len() == 512);
    assert!(rt; fs::read(rt, "elsewhere").ok()?.as_slice() == b"mine".as_slice());
    assert!(rt; folder.is_kept(rt).ok()? == true);
    fs::remove_file(rt, "elsewhere").ok()
}

/// All of these, in a folder of their own. `None`: allocation failed.
fn loses_nothing<R: Abort + AllocGlobal + Files<File = File>>(rt: &R) -> Option<()> {
    stays(
        rt,
        "lost/log.blk",
        Part::Log,
        b"ALSLOG01\0\0\0\x04\0\0\0\0\0\0\0\x24",
    )?;
    stays(rt, "lost/pages.blk", Part::Pages, b"\0\0\x01")?;
    stays_behind_a_link(rt)?;
    is_no_database(rt)?;
    is_laid_out_again(rt)
}

/// The same, once.
fn loses_nothing_anew<R: Abort + AllocGlobal + Files<File = File>>(rt: &R) -> Option<()> {
    fs::create_dir(rt, "lost").ok()?;
    let outcome = loses_nothing(rt);
    fs::remove_dir_all(rt, "lost").ok()?;
    let _ = fs::remove_file(rt, "elsewhere");
    outcome
}

#[test]
fn a_folder_that_lost_its_control_block(rt: HostRuntime) {
    assert!(rt; loses_nothing_anew(&rt).is_some() || loses_nothing_anew(&rt).is_some());
}

/// Folders that are read are held side by side, and not beside one that is written. `None`: memory
/// was refused.
fn are_read_together<R: Abort + AllocGlobal + Files<File = File>>(rt: &R) -> Option<()> {
    let one = Folder::hold_to_read(rt, "read").ok()?;
    let two = Folder::hold_to_read(rt, "read").ok()?;
    assert!(rt; tells(Folder::hold(rt, "read").err(), Fault::Busy));
    drop(one);
    drop(two);
    let held = Folder::hold(rt, "read").ok()?;
    assert!(rt; tells(Folder::hold_to_read(rt, "read").err(), Fault::Busy));
    drop(held);
    Some(())
}

/// The same, once.
fn are_read_together_anew<R: Abort + AllocGlobal + Files<File = File>>(rt: &R) -> Option<()> {
    fs::create_dir(rt, "read").ok()?;
    let outcome = are_read_together(rt);
    fs::remove_dir_all(rt, "read").ok()?;
    outcome
}

#[test]
fn readers_hold_a_folder_together(rt: HostRuntime) {
    assert!(rt; are_read_together_anew(&rt).is_some() || are_read_together_anew(&rt).is_some());
}
