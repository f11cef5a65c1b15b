ghost use Rattle.std.specs.Prelude.{◌≡◌, ◌≤◌, ◌<◌, ◌*◌, ◌^◌, IfOk, length};
ghost use Rattle.als_engine.specs.Readers.{AreReaders};

use crate::copying::copy;
use crate::fault::Fault;
use crate::log_text::{Database, damaged};
use als_disk::MemDisk;
use als_engine::{Config, Disks, Engine, Reader};
use als_folder::{DeviceFiles, Fault as FolderFault, Part, Sizes};
use als_progress::{Advance, Unwatched};
use std::alloc::Global;
use std::fs::File;
use std::sync::Wait;

/// The standby of a folder as a restart finds it, over a copy of its devices in memory, with a
/// reader. It is Recovering. The files are only read. `advance` receives how far the log was.
///
/// Folder: a file failed, or is too short. Standby: a restart would refuse the database.
pub fn restarted<R: AllocGlobal + Wait, A: Advance>(
    rt: &R,
    files: &DeviceFiles,
    database: &Database,
    advance: &mut A,
) -> Result<(Engine<MemDisk>, Vec<Reader>), Fault>
    requires { database.now.state.mark.0 ≤ 2147483648 }
    ensures readers { IfOk result (λ t. AreReaders t.0.book t.0.machine.held.pages t.1.items
        × (length t.1.items ≡ 1)) }
{
    let alloc = rt.alloc();
    let pages = database.pages as u64;
    let config = Config {
        pages,
        frames: pages,
        pending: 1_000_000,
        readers: 1,
    };
    let disks = copies(alloc, files, database, advance)?;
    match Engine::open(alloc, rt, disks, config) {
        Ok(opened) => Ok(opened),
        Err(refused) => {
            let fault = refused.fault;
            drop(refused);
            Err(Fault::Standby(fault))
        }
    }
}

/// The devices of a folder, copied into memory: of the log what is acknowledged, and zeros behind.
fn copies<A: Advance>(
    alloc: Global,
    files: &DeviceFiles,
    database: &Database,
    advance: &mut A,
) -> Result<Disks<MemDisk>, Fault> {
    let sizes = sizes_of(files)?;
    let end = database.state.mark.0;
    if end.div_ceil(512) > sizes.log {
        return Err(damaged(Part::Log));
    }
    if sizes.pages < u64::from(database.pages) {
        return Err(damaged(Part::Pages));
    }
    Ok(Disks {
        log: copy_part(alloc, Part::Log, &files.log, end, sizes.log, advance)?,
        control: copy_whole(alloc, Part::Control, &files.control, sizes.control)?,
        pages: copy_whole(alloc, Part::Pages, &files.pages, sizes.pages)?,
    })
}

/// How many whole blocks the files have.
fn sizes_of(files: &DeviceFiles) -> Result<Sizes, FolderFault>
    ensures { IfOk result (λ s. (s.control * 512 < 2 ^ 64) × (s.pages * 512 < 2 ^ 64)) }
{
    match files.sizes() {
        Ok(sizes) => Ok(sizes),
        Err(e) => Err(FolderFault::of(Part::Itself, e)),
    }
}

/// The whole blocks of a part of the folder.
fn copy_whole(alloc: Global, part: Part, file: &File, blocks: u64) -> Result<MemDisk, FolderFault>
    requires { blocks * 512 < 2 ^ 64 }
{
    copy_part(alloc, part, file, blocks * 512, blocks, &mut Unwatched)
}

/// So many bytes of a part of the folder, in a device of so many blocks.
fn copy_part<A: Advance>(
    alloc: Global,
    part: Part,
    file: &File,
    len: u64,
    blocks: u64,
    advance: &mut A,
) -> Result<MemDisk, FolderFault>
    requires { len ≤ 512 * blocks }
{
    match copy(alloc, file, len, blocks, advance) {
        Ok(disk) => Ok(disk),
        Err(e) => Err(FolderFault::of(part, e)),
    }
}
