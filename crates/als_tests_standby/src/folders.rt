use als_disk::{BlockDisk, DeviceError};
use als_folder::{Fault, Folder, Found, Part, Sizes, Trouble, Vacancy, Wrong};
use std::fs;
use std::fs::File;
use std::process::Abort;
use std::rt::Files;

// What a folder calls its files for.
mod calls;
// A folder of which a file was lost.
mod losing;
// The file that says which folder it is.
mod ids;
// Two folders with names of one file.
mod locking;
// The names of files that are open.
mod names;
// The file that makes a folder a primary's.
mod roles;

const SIZES: Sizes = Sizes {
    log: 3,
    control: 2,
    pages: 1,
};

/// A file that is missing.
fn missing(part: Part) -> Fault {
    Fault::Device(Trouble {
        part,
        wrong: Wrong::Missing,
    })
}

/// Fills the first block of a device, if it has one, and syncs it.
fn fill<D: BlockDisk>(disk: &mut D, byte: u8) -> Result<(), DeviceError> {
    if 0 < disk.blocks() {
        disk.write(0, &[byte; 512])?;
    }
    disk.sync()
}

/// How many blocks a device has, and the first byte of its first block.
fn sees<D: BlockDisk>(disk: &mut D) -> Option<(u64, u8)> {
    let mut block = [0; 512];
    if 0 < disk.blocks() {
        disk.read(0, &mut block).ok()?;
    }
    Some((disk.blocks(), block[0]))
}

/// Whether a call is refused so, or for want of memory.
fn tells(refused: Option<Fault>, wanted: Fault) -> bool {
    refused == Some(wanted) || refused == Some(Fault::Memory)
}

/// A place for a new database. `None`: there is none, or allocation failed.
fn vacancy<'a, R: Files<File = File> + AllocGlobal>(
    rt: &R,
    folder: &'a Folder,
) -> Option<Vacancy<'a>> {
    match folder.find(rt) {
        Ok(Found::Vacant(vacancy)) => Some(vacancy),
        Ok(Found::Kept) | Err(_) => None,
    }
}

/// Lays out a database whose blocks begin with these bytes. `None`: allocation failed.
fn lay_out<R: Files<File = File> + AllocGlobal>(
    rt: &R,
    folder: &Folder,
    bytes: [u8; 3],
) -> Option<()> {
    let mut devices = vacancy(rt, folder)?.lay_out(rt, SIZES).ok()?;
    fill(&mut devices.log, bytes[0]).ok()?;
    fill(&mut devices.control, bytes[1]).ok()?;
    fill(&mut devices.pages, bytes[2]).ok()
}

/// A folder is held once, laid out twice, kept, and opened by the next program. `None`: memory was
/// refused.
fn goes_its_way<R: Abort + AllocGlobal + Files<File = File>>(rt: &R) -> Option<()> {
    let folder = Folder::hold(rt, "standby").ok()?;
    assert!(rt;
        matches!(
            Folder::hold(rt, "standby"),
            Err(Fault::Busy | Fault::Memory)
        )
    );
    // A stop before `keep` leaves no database.
    lay_out(rt, &folder, [1, 2, 3])?;
    assert!(rt; folder.is_kept(rt).ok()? == false);
    assert!(rt; tells(folder.open(rt).err(), missing(Part::Control)));
    lay_out(rt, &folder, [4, 5, 6])?;
    let late = vacancy(rt, &folder)?;
    folder.keep(rt).ok()?;
    assert!(rt; folder.is_kept(rt).ok()? == true);
    // Nothing is laid out any more, nor by what was found before.
    assert!(rt; vacancy(rt, &folder).is_none());
    assert!(rt; late.lay_out(rt, SIZES).is_err());
    drop(folder);
    let next = Folder::hold(rt, "standby").ok()?;
    let mut devices = next.open(rt).ok()?;
    assert!(rt; sees(&mut devices.log)? == (3, 4));
    assert!(rt; sees(&mut devices.control)? == (2, 5));
    assert!(rt; sees(&mut devices.pages)? == (1, 6));
    Some(())
}

/// Below a mark, the log's device has what its file has, and zeros above. `None`: allocation failed.
fn sees_below<R: AllocGlobal + Files<File = File>>(
    rt: &R,
    folder: &Folder,
    bytes: u64,
) -> Option<(u64, u8)> {
    let control = folder.open_control(rt).ok()?;
    let mut devices = folder.open_beside(rt, control, bytes).ok()?;
    sees(&mut devices.log)
}

/// What lies above a mark in the log is not read, and not written: it is there when all of it is
/// opened. `None`: allocation failed.
fn opens_below<R: Abort + AllocGlobal + Files<File = File>>(rt: &R) -> Option<()> {
    let folder = Folder::hold(rt, "marked").ok()?;
    lay_out(rt, &folder, [4, 5, 6])?;
    folder.keep(rt).ok()?;
    assert!(rt; sees_below(rt, &folder, 0)? == (3, 0));
    assert!(rt; sees_below(rt, &folder, 1)? == (3, 4));
    assert!(rt; sees_below(rt, &folder, u64::MAX)? == (3, 4));
    let mut devices = folder.open(rt).ok()?;
    assert!(rt; sees(&mut devices.log)? == (3, 4));
    Some(())
}

/// The same in a folder of its own.
fn opens_below_anew<R: Abort + AllocGlobal + Files<File = File>>(rt: &R) -> Option<()> {
    fs::create_dir(rt, "marked").ok()?;
    let outcome = opens_below(rt);
    fs::remove_dir_all(rt, "marked").ok()?;
    outcome
}

#[test]
fn a_log_is_opened_below_its_mark(rt: HostRuntime) {
    assert!(rt; opens_below_anew(&rt).is_some() || opens_below_anew(&rt).is_some());
}

/// The same in a folder of its own.
fn goes_its_way_anew<R: Abort + AllocGlobal + Files<File = File>>(rt: &R) -> Option<()> {
    fs::create_dir(rt, "standby").ok()?;
    let outcome = goes_its_way(rt);
    fs::remove_dir_all(rt, "standby").ok()?;
    outcome
}

#[test]
fn a_folder_is_laid_out_and_opened(rt: HostRuntime) {
    assert!(rt; goes_its_way_anew(&rt).is_some() || goes_its_way_anew(&rt).is_some());
}

#[test]
fn a_folder_that_is_missing(rt: HostRuntime) {
    let held = Folder::hold(&rt, "no folder").err();
    assert!(rt; tells(held, missing(Part::Itself)));
    assert!(rt; missing(Part::Log).number() == 30);
    assert!(rt; Fault::Busy.name() == "Device");
    assert!(rt; Fault::Memory.number() == 32);
}

/// A file is no folder. `None`: allocation failed.
fn is_no_folder<R: Abort + AllocGlobal + Files<File = File>>(rt: &R) -> Option<()> {
    fs::write(rt, "a file", "").ok()?;
    let folder = Folder::hold(rt, "a file").ok()?;
    let none = Fault::Device(Trouble {
        part: Part::Itself,
        wrong: Wrong::NoFolder,
    });
    assert!(rt; tells(folder.is_kept(rt).err(), none));
    drop(folder);
    fs::remove_file(rt, "a file").ok()
}

#[test]
fn a_file_is_no_folder(rt: HostRuntime) {
    assert!(rt; is_no_folder(&rt).is_some() || is_no_folder(&rt).is_some());
    assert!(rt; Fault::Busy.trouble().map(|trouble| trouble.wrong) == Some(Wrong::Locked));
    assert!(rt; Part::Pages.file_name() == "pages.blk");
}
