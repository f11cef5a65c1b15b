ghost use Rattle.std.specs.Prelude.{◌≡◌, ◌≢◌, ◌≤◌, ◌<◌, ◌/◌, Ok, None, OnOk, IfErr, IfSome};
ghost use Rattle.als_engine.specs.declared.fault.Fault.TheVariants.{BadConfig, BadControl};
ghost use Rattle.als_operate.specs.declared.fault.Fault.TheVariants.{Refused};

use crate::devices::open_devices;
use als_ckpt::{Fault as ControlFault, Phase, follow_again, read_state};
use als_disk::{BlockDisk, FileDisk};
use als_drive::{Progress, recover_telling};
use als_engine::{Config, Engine, Fault as EngineFault, LOG_BLOCK_LIMIT, Reader};
use als_folder::{Fault as FolderFault, Folder, Found, Part, Role, Trouble, Wrong};
use als_operate::{Extent, Fault, PENDING, check_pages_fit, extent_of, named};
use als_ship::force;
use als_writer::{Refusal, tidy};
use std::fs::File;
use std::rt::Files;
use std::sync::Wait;

/// The database of a primary.
#[derive(Clone, Copy, Debug)]
pub struct Database<'a> {
    /// The folder of the primary's database.
    pub dir: &'a str,
    /// Pages that it has to have, 1 to 4,096. None: as many as it has.
    pub pages: Option<u64>,
    /// Blocks that its log device has to have at least, 1 to 4,194,304. None: as many as it has.
    pub log_blocks: Option<u64>,
    /// The readers of its view, 1 to 8.
    pub readers: u64,
}

/// A primary whose folder is locked. Its pages are redone, and nothing is owed to its log.
pub struct Primary {
    pub folder: Folder,
    pub engine: Engine<FileDisk>,
    pub readers: Vec<Reader>,
}

/// An engine and the readers of its view.
type Opened = (Engine<FileDisk>, Vec<Reader>);

/// Opens the folder of a primary. It makes no database.
///
/// BadConfig: a number is out of its range, or the log device has fewer blocks than are given. BadControl:
/// the database has another number of pages than is given. NotPrimary: it is a standby's folder. Sealed: a
/// takeover has not finished. Device: the folder or one of its files failed, another program has it, or it
/// has no database: nothing was touched then. Memory: allocation failed. Else as for `Engine::open`.
pub fn open<R: AllocGlobal + Files<File = File> + Wait, P: Progress>(
    rt: &R,
    database: Database<'_>,
    progress: &mut P,
) -> Result<Primary, Fault> {
    check_numbers(database)?;
    let folder = Folder::hold(rt, database.dir)?;
    match open_in(rt, &folder, database, progress) {
        Ok((engine, readers)) => Ok(Primary {
            folder,
            engine,
            readers,
        }),
        Err(fault) => Err(named(&folder, fault)),
    }
}

/// Opens the engine of a locked folder. What a crash left in mid-transaction is tidied, in one force.
fn open_in<R: AllocGlobal + Files<File = File> + Wait, P: Progress>(
    rt: &R,
    folder: &Folder,
    database: Database<'_>,
    progress: &mut P,
) -> Result<Opened, Fault> {
    let (mut engine, readers) = open_found(rt, folder, database)?;
    recover_telling(rt, &mut engine, progress)?;
    match tidy(rt.alloc(), &mut engine) {
        Ok(()) => {}
        Err(refusal) => return Err(ended(refusal)),
    }
    force(&mut engine)?;
    Ok((engine, readers))
}

/// Opens the engine of a folder's database.
fn open_found<R: AllocGlobal + Files<File = File> + Wait>(
    rt: &R,
    folder: &Folder,
    database: Database<'_>,
) -> Result<Opened, Fault> {
    match folder.find(rt)? {
        Found::Kept => {
            check_pages_fit(rt, folder)?;
            check_sizes_given(rt, folder, database)?;
            follow_own_log(rt, folder)?;
            open_devices(rt, folder, database.readers)
        }
        Found::Vacant(_) => Err(vacant()),
    }
}

/// The folder has no database.
fn vacant() -> Fault {
    Fault::Folder(FolderFault::Device(Trouble {
        part: Part::Control,
        wrong: Wrong::Missing,
    }))
}

/// Refuses numbers that are out of range, before a file is touched: BadConfig.
fn check_numbers(database: Database<'_>) -> Result<(), Fault> {
    let pages = database.pages.unwrap_or(1);
    let has_blocks = (1..=LOG_BLOCK_LIMIT).contains(&database.log_blocks.unwrap_or(1));
    if has_blocks && config_with(database, pages).is_valid() {
        Ok(())
    } else {
        Err(Fault::Refused(EngineFault::BadConfig))
    }
}

/// Refuses a page count that is not that of the folder's log, and a log device that has fewer blocks than are
/// given. Where the log's header can't be read, it is refused later.
fn check_sizes_given<R: AllocGlobal + Files<File = File>>(
    rt: &R,
    folder: &Folder,
    database: Database<'_>,
) -> Result<(), Fault> {
    let Some(extent) = extent_of(rt, folder)? else {
        return Ok(());
    };
    check_pages_given(extent, database.pages)?;
    check_blocks_given(extent, database.log_blocks)
}

/// Refuses another number of pages than is given: BadControl.
fn check_pages_given(extent: Extent, given: Option<u64>) -> Result<(), Fault>
    ensures right { OnOk result (IfSome given (λ pages. extent.pages ≡ pages)) }
    ensures wrong { IfErr result (λ fault. (fault ≡ Refused BadControl)
        × IfSome given (λ pages. extent.pages ≢ pages)) }
    ensures free { given ≡ None → result ≡ Ok tt }
{
    match given {
        Some(pages) if pages != u64::from(extent.pages) => {
            Err(Fault::Refused(EngineFault::BadControl))
        }
        Some(_) | None => Ok(()),
    }
}

/// Refuses fewer blocks than are given: BadConfig.
fn check_blocks_given(extent: Extent, given: Option<u64>) -> Result<(), Fault>
    ensures right { OnOk result (IfSome given (λ blocks. blocks ≤ extent.log_bytes / 512)) }
    ensures wrong { IfErr result (λ fault. (fault ≡ Refused BadConfig)
        × IfSome given (λ blocks. extent.log_bytes / 512 < blocks)) }
    ensures free { given ≡ None → result ≡ Ok tt }
{
    match given {
        Some(blocks) if blocks > extent.log_bytes / 512 => {
            Err(Fault::Refused(EngineFault::BadConfig))
        }
        Some(_) | None => Ok(()),
    }
}

/// The configuration of a database of this many pages.
fn config_with(database: Database<'_>, pages: u64) -> Config {
    Config {
        pages,
        frames: pages,
        pending: PENDING,
        readers: database.readers,
    }
}

/// The fault of a primary that cannot be tidied.
fn ended(refusal: Refusal) -> Fault {
    match refusal {
        Refusal::Memory { .. } => Fault::Memory,
        Refusal::State(fault) | Refusal::Unplanned(fault) => Fault::Refused(fault),
        _ => Fault::Refused(EngineFault::NotDrained),
    }
}

/// Lets the node of a folder follow its own log, as a primary does, if it is a primary's or was taken over.
/// A node that was taken over gets the role of its epoch first, and then its control block says Following.
/// A stop between the two leaves a primary with a role, for which the same is done again.
///
/// Files that cannot be read are left to the calls that open them.
fn follow_own_log<R: AllocGlobal + Files<File = File>>(
    rt: &R,
    folder: &Folder,
) -> Result<(), Fault> {
    let role = folder.role(rt)?;
    let Some(Extent { pages, log_bytes }) = extent_of(rt, folder)? else {
        return Ok(());
    };
    let mut control = folder.open_control(rt)?;
    if control.blocks() == 0 {
        return Ok(());
    }
    let state = match read_state(&mut control, pages, log_bytes) {
        Ok(state) => state,
        Err(ControlFault::BadControl) => return Ok(()),
        Err(_) => return Err(Fault::Refused(EngineFault::Device)),
    };
    let own = Role {
        epoch: state.history.epoch(),
    };
    match state.phase {
        Phase::Sealed => Err(Fault::Refused(EngineFault::Sealed)),
        Phase::Following if role == Some(own) => Ok(()),
        Phase::Following => Err(Fault::Refused(EngineFault::NotPrimary)),
        Phase::Primary => {
            folder.make_role(rt, own)?;
            match follow_again(&mut control, pages, log_bytes) {
                Ok(_) => Ok(()),
                Err(_) => Err(Fault::Refused(EngineFault::Device)),
            }
        }
    }
}
