// The devices of a primary's folder, and the engine over them with its view's readers.
use als_disk::FileDisk;
use als_engine::{CONTROL_BLOCKS, Config, Disks, Engine, Reader, Refused};
use als_folder::{Devices, Folder, Role, Sizes, Vacancy};
use als_operate::{Fault, PENDING, own_devices};
use std::fs::File;
use std::rt::Files;
use std::sync::Wait;

/// Opens the engine of a folder's database, with as many pages as `pages.blk` has blocks, and its readers.
/// Old blocks of the log are dropped from memory: a writer does not read them again.
pub(crate) fn open_devices<R: AllocGlobal + Files<File = File> + Wait>(
    rt: &R,
    folder: &Folder,
    readers: u64,
) -> Result<(Engine<FileDisk>, Vec<Reader>), Fault> {
    let (devices, pages) = own_devices(rt, folder)?;
    let mut devices = devices;
    devices.forget_old_log();
    let config = Config {
        pages,
        frames: pages,
        pending: PENDING,
        readers,
    };
    made_or_fault(Engine::open(rt.alloc(), rt, disks(devices), config))
}

/// Makes the database of a new primary, of so many pages, with so many blocks for its log. The folder gets a
/// primary's role before it gets the database: without a role it would be a standby's.
pub(crate) fn lay_out_in<R: AllocGlobal + Files<File = File> + Wait>(
    rt: &R,
    folder: &Folder,
    vacancy: Vacancy<'_>,
    pages: u64,
    log_blocks: u64,
) -> Result<(), Fault> {
    let sizes = Sizes {
        log: log_blocks,
        control: CONTROL_BLOCKS,
        pages,
    };
    let mut devices = vacancy.lay_out(rt, sizes)?;
    devices.lock_new()?;
    devices.forget_old_log();
    let config = Config {
        pages,
        frames: pages,
        pending: PENDING,
        readers: 1,
    };
    let (engine, readers) = made_or_fault(Engine::format(rt.alloc(), rt, disks(devices), config))?;
    drop(readers);
    folder.make_role(rt, Role { epoch: 0 })?;
    folder.keep(rt)?;
    drop(engine);
    Ok(())
}

/// The devices of a folder, for an engine.
fn disks(devices: Devices) -> Disks<FileDisk> {
    let (log, control, pages) = devices.into_parts();
    Disks {
        log,
        control,
        pages,
    }
}

/// The engine and its readers, or the fault. After a refusal the devices are dropped.
fn made_or_fault(
    made: Result<(Engine<FileDisk>, Vec<Reader>), Refused<FileDisk>>,
) -> Result<(Engine<FileDisk>, Vec<Reader>), Fault> {
    match made {
        Ok(made) => Ok(made),
        Err(refused) => {
            let fault = refused.fault;
            drop(refused);
            Err(Fault::Refused(fault))
        }
    }
}
