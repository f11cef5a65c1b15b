ghost use Rattle.std.specs.Prelude.{◌≡◌, ℕ, None, IfSome};
ghost use Rattle.als_disk.specs.Slot.{IsSettled};
ghost use Rattle.als_operate.specs.FaultNames.{kind_of};

use crate::fault::Fault;
use crate::forgetting::{Extent, extent_of};
use als_ckpt::{Phase, read_state};
use als_disk::{BlockDisk, FileDisk};
use als_engine::{CONTROL_BLOCKS, Config, Disks, Engine, Fault as EngineFault, Reader, Refused};
use als_fault::FaultKind;
use als_folder::{
    Devices, Fault as FolderFault, Folder, LOG_LIMIT, Part, Sizes, Trouble, Vacancy, Wrong,
};
use als_record::LogHeader;
use std::fs::File;
use std::rt::Files;
use std::sync::Wait;

/// What the control block of a folder says of its database.
#[derive(Clone, Copy, Drop)]
struct Told {
    phase: Phase,
    /// So many bytes of the log are acknowledged.
    mark: u64,
}

/// The devices of a folder's database, and what its control block says. None: it is no control block
/// of so many pages.
type Opened = (Devices, Option<Told>);

/// The engine of the folder's database and its readers.
///
/// Sealed: the database was taken over, and follows no more.
pub(crate) fn open_kept<R: AllocGlobal + Files<File = File> + Wait>(
    rt: &R,
    folder: &Folder,
    config: Config,
) -> Result<(Engine<FileDisk>, Vec<Reader>), Fault> {
    check_pages_fit(rt, folder)?;
    let (devices, told) = open_devices(rt, folder, config.pages)?;
    check_lengths(&devices, config.pages, told)?;
    match told {
        Some(
            Told {
                phase: Phase::Sealed | Phase::Primary,
                mark: _,
            },
        ) => return Err(Fault::Refused(EngineFault::Sealed)),
        Some(_) | None => {}
    }
    let mut devices = devices;
    devices.forget_old_log();
    made_or_fault(Engine::open(rt.alloc(), rt, disks(devices), config))
}

/// The engine of the folder's database, of as many pages as `pages.blk` has blocks. Nobody reads here:
/// its reader is dropped.
pub fn reopen<R: AllocGlobal + Files<File = File> + Wait>(
    rt: &R,
    folder: &Folder,
    pending: u64,
) -> Result<Engine<FileDisk>, Fault> {
    let (devices, pages) = own_devices(rt, folder)?;
    open_own(rt, devices, pages, pending)
}

/// The devices of the folder's database, and how many pages it has: as many as `pages.blk` has blocks.
///
/// Folder: a file failed, or has not the length that its database asks for.
pub fn own_devices<R: AllocGlobal + Files<File = File>>(
    rt: &R,
    folder: &Folder,
) -> Result<(Devices, u64), Fault> {
    let pages = page_blocks(rt, folder)?;
    check_page_count(rt, folder, pages)?;
    let (devices, told) = open_devices(rt, folder, pages)?;
    let mut devices = devices;
    check_lengths(&devices, pages, told)?;
    check_header(&mut devices, pages)?;
    Ok((devices, pages))
}

/// The engine of a database of so many pages. Its reader is dropped.
pub(crate) fn open_own<R: AllocGlobal + Wait>(
    rt: &R,
    devices: Devices,
    pages: u64,
    pending: u64,
) -> Result<Engine<FileDisk>, Fault> {
    let config = Config {
        pages,
        frames: pages,
        pending,
        readers: 1,
    };
    let (engine, readers) = made_or_fault(Engine::open(rt.alloc(), rt, disks(devices), config))?;
    drop(readers);
    Ok(engine)
}

/// Opens the devices of a folder's database of so many pages. Of the log, what the control block
/// acknowledges is read: nobody asks for more, and a log device may be much longer.
fn open_devices<R: AllocGlobal + Files<File = File>>(
    rt: &R,
    folder: &Folder,
    pages: u64,
) -> Result<Opened, Fault> {
    let mut control = folder.open_control(rt)?;
    let told = told_by(&mut control, pages);
    let devices = folder.open_beside(rt, control, known_bytes(told))?;
    Ok((devices, told))
}

/// What a control block of a database of so many pages says.
fn told_by(control: &mut FileDisk, pages: u64) -> Option<Told>
    requires { (k : ℕ) → IsSettled (⟦<FileDisk<File> as BlockDisk>⟧.slot control.old k) }
{
    if control.blocks() < CONTROL_BLOCKS {
        return None;
    }
    let Ok(count) = u32::try_from(pages) else {
        return None;
    };
    match read_state(control, count, LOG_LIMIT) {
        Ok(state) => Some(Told {
            phase: state.phase,
            mark: state.mark.0,
        }),
        Err(_) => None,
    }
}

/// How many bytes of the log may hold something: those that are acknowledged, and each where that is not
/// known.
fn known_bytes(told: Option<Told>) -> u64
    ensures known { IfSome told (λ t. result ≡ t.mark) }
    ensures unknown { told ≡ None → result ≡ 18446744073709551615 }
{
    match told {
        Some(told) => told.mark,
        None => u64::MAX,
    }
}

/// How many whole blocks `pages.blk` has.
fn page_blocks<R: AllocGlobal + Files<File = File>>(rt: &R, folder: &Folder) -> Result<u64, Fault> {
    let files = folder.open_to_read(rt)?;
    match files.sizes() {
        Ok(sizes) => Ok(sizes.pages),
        Err(e) => Err(Fault::Folder(FolderFault::of(Part::Pages, e))),
    }
}

/// Refuses a `pages.blk` of more blocks than its database has pages, before anything is written.
///
/// Folder: a file failed, or it has more.
pub fn check_pages_fit<R: AllocGlobal + Files<File = File>>(
    rt: &R,
    folder: &Folder,
) -> Result<(), Fault> {
    let blocks = page_blocks(rt, folder)?;
    check_page_count(rt, folder, blocks)
}

/// Refuses so many blocks for the pages of a database that has fewer: as many as the log's header and the
/// control block both say. Where they do not agree, the engine tells what is wrong with them.
fn check_page_count<R: AllocGlobal + Files<File = File>>(
    rt: &R,
    folder: &Folder,
    blocks: u64,
) -> Result<(), Fault> {
    let Some(
        Extent {
            pages,
            log_bytes: _,
        },
    ) = extent_of(rt, folder)?
    else {
        return Ok(());
    };
    if blocks <= u64::from(pages) {
        return Ok(());
    }
    let mut control = folder.open_control(rt)?;
    match told_by(&mut control, u64::from(pages)) {
        Some(_) => Err(damaged(Part::Pages, Wrong::Long { blocks, pages })),
        None => Ok(()),
    }
}

/// Refuses files that are too short for a database of so many pages, and for the mark that its
/// control block has.
fn check_lengths(devices: &Devices, pages: u64, told: Option<Told>) -> Result<(), Fault> {
    let found = devices.sizes();
    if found.control < CONTROL_BLOCKS {
        return Err(damaged(Part::Control, Wrong::Short));
    }
    let control = CONTROL_BLOCKS;
    match told {
        Some(told) => {
            let log = told.mark.div_ceil(512);
            let needed = Sizes {
                log,
                control,
                pages,
            };
            match found.shorter_than(needed) {
                Some(part) => Err(damaged(part, Wrong::Short)),
                None => Ok(()),
            }
        }
        // What the files should have is not known: the engine tells what is wrong with them.
        None => {
            let log = 1;
            let needed = Sizes {
                log,
                control,
                pages,
            };
            match found.shorter_than(needed) {
                Some(_) if pages <= u64::from(u32::MAX) => {
                    Err(damaged(Part::Control, Wrong::BadControl))
                }
                Some(_) | None => Ok(()),
            }
        }
    }
}

/// Refuses a `pages.blk` that has fewer blocks than the log's header says pages. A header that is none
/// says nothing: the engine refuses it.
fn check_header(devices: &mut Devices, pages: u64) -> Result<(), Fault> {
    if devices.log.blocks() == 0 {
        return Ok(());
    }
    let mut block = [0; 512];
    match devices.log.read(0, &mut block) {
        Ok(()) => {}
        Err(_) => return Ok(()),
    }
    let (front, _) = block.split_at(16);
    match LogHeader::decode(front) {
        Ok(Some(header)) if pages < u64::from(header.pages) => {
            Err(damaged(Part::Pages, Wrong::Short))
        }
        Ok(_) | Err(_) => Ok(()),
    }
}

/// The files are not those of one database.
fn damaged(part: Part, wrong: Wrong) -> Fault {
    Fault::Folder(FolderFault::Damaged(Trouble { part, wrong }))
}

/// The same refusal. Where a device failed, it tells which file that was, and what is wrong with it.
pub fn named(folder: &Folder, fault: Fault) -> Fault
    ensures { kind_of result ≡ kind_of fault }
{
    match (fault.kind(), folder.trouble()) {
        (FaultKind::Device, Some(trouble)) => Fault::Folder(FolderFault::Device(trouble)),
        _ => fault,
    }
}

/// The engine of a new database and its readers, in a folder that was found to have none. The folder
/// has it once `Folder::keep` was called.
pub(crate) fn begin<R: AllocGlobal + Files<File = File> + Wait>(
    rt: &R,
    vacancy: Vacancy<'_>,
    config: Config,
    log_blocks: u64,
) -> Result<(Engine<FileDisk>, Vec<Reader>), Fault> {
    let sizes = Sizes {
        log: log_blocks,
        control: CONTROL_BLOCKS,
        pages: config.pages,
    };
    let mut devices = vacancy.lay_out(rt, sizes)?;
    devices.lock_new()?;
    devices.forget_old_log();
    made_or_fault(Engine::format(rt.alloc(), rt, disks(devices), config))
}

/// The devices of a folder as an engine takes them.
fn disks(devices: Devices) -> Disks<FileDisk> {
    let (log, control, pages) = devices.into_parts();
    Disks {
        log,
        control,
        pages,
    }
}

/// The engine and its readers, or why there is none. The devices are dropped on a refusal.
fn made_or_fault(
    made: Result<(Engine<FileDisk>, Vec<Reader>), Refused<FileDisk>>,
) -> Result<(Engine<FileDisk>, Vec<Reader>), Fault> {
    match made {
        Ok(made) => Ok(made),
        Err(refused) => {
            let fault = refused.fault;
            drop(refused);
            Err(Fault::Refused(fault))
        }
    }
}
