// The engine of a primary's folder.
use crate::fault::Fault;
use crate::holding::config_of;
use crate::opening::{begin, open_own, own_devices};
use crate::standby_command::PENDING;
use als_disk::FileDisk;
use als_engine::Engine;
use als_folder::{Folder, Role, Vacancy};
use std::fs::File;
use std::rt::Files;
use std::sync::Wait;

/// The engine of the database of a primary's folder. Its reader is dropped.
///
/// As `reopen`, but old blocks of the log are forgotten: a writer does not read them again.
pub fn open_primary<R: AllocGlobal + Files<File = File> + Wait>(
    rt: &R,
    folder: &Folder,
) -> Result<Engine<FileDisk>, Fault> {
    let (devices, pages) = own_devices(rt, folder)?;
    let mut devices = devices;
    devices.forget_old_log();
    open_own(rt, devices, pages, PENDING)
}

/// The engine of a new database of so many pages, with so many blocks for its log. The folder has a
/// primary's role before it has the database.
///
/// BadConfig: a number is out of its range; no file was touched.
pub fn begin_primary<R: AllocGlobal + Files<File = File> + Wait>(
    rt: &R,
    folder: &Folder,
    vacancy: Vacancy<'_>,
    pages: u64,
    log_blocks: u64,
) -> Result<Engine<FileDisk>, Fault> {
    let config = config_of(pages, log_blocks, 1)?;
    folder.make_role(rt, Role { epoch: 0 })?;
    let (engine, readers) = begin(rt, vacancy, config, log_blocks)?;
    drop(readers);
    folder.keep(rt)?;
    Ok(engine)
}
