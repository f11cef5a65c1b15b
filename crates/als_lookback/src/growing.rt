//! A longer log device.
//!
//! 1. The folder is held alone, and has a whole database.
//! 2. Blocks of zeros are written behind the file's last whole block, in rising order, so that its
//!    disk has room for each of them. The file and then the folder are synced.
//! 3. What stands below the former end is not written. A log's device may be longer than its log: so
//!    a stop on the way leaves the node as it was, and `grow` is run again.
//! 4. Where a write fails, the file is cut to its former length, and its room given back.
ghost use Rattle.std.specs.Prelude.{◌≡◌, ◌≤◌};
ghost use Rattle.als_lookback.specs.Growing.{answer_of};

use crate::fault::Fault;
use crate::source::log_path;
use als_folder::{Fault as FolderFault, Folder, Part, Trouble, Wrong};
use als_progress::{Advance, Work};
use std::alloc::Global;
use std::fs::{File, OpenOptions};
use std::io;
use std::os::unix::fs::FileExt;
use std::rt::Files;

/// The most blocks of a log's device: those of 2 GiB.
pub const BLOCKS_LIMIT: u64 = 4_194_304;

/// How many blocks are written at once.
const PIECE: u64 = 2048;

/// Makes the log's device of a folder so many blocks long, and answers how many it had. A stop on
/// the way leaves the node as it was; then the call is made again, and a device that is as long
/// already is synced. `advance` receives how many bytes it has.
///
/// NotLonger: it has more. TooLong: these are more than the largest log has. Folder: the folder or a
/// file of it failed, there is no room on its disk, there is no database, or another program has it.
/// Memory: there was none for a name.
pub fn grow<R: AllocGlobal + Files<File = File>, A: Advance>(
    rt: &R,
    dir: &str,
    blocks: u64,
    advance: &mut A,
) -> Result<u64, Fault> {
    let folder = Folder::hold(rt, dir)?;
    if !folder.is_kept(rt)? {
        let (part, wrong) = (Part::Control, Wrong::Missing);
        return Err(Fault::Folder(FolderFault::Device(Trouble { part, wrong })));
    }
    let path = log_path(rt, dir)?;
    let log = match OpenOptions::new()
        .read(true)
        .write(true)
        .open(rt, path.as_path())
    {
        Ok(log) => log,
        Err(e) => return Err(of(Part::Log, e)),
    };
    let had = match log.metadata() {
        Ok(found) => found.len() / 512,
        Err(e) => return Err(of(Part::Log, e)),
    };
    check_size(had, blocks)?;
    if let Err(e) = extend(rt.alloc(), &log, had, blocks, advance) {
        let _ = log.set_len(had * 512);
        return Err(of(Part::Log, e));
    }
    sync_folder(rt, dir)?;
    drop(folder);
    Ok(had)
}

/// That a device of so many blocks may have so many.
fn check_size(had: u64, blocks: u64) -> Result<(), Fault>
    ensures { result ≡ answer_of had blocks }
{
    if blocks > BLOCKS_LIMIT {
        return Err(Fault::TooLong);
    }
    if blocks < had {
        return Err(Fault::NotLonger { blocks: had });
    }
    Ok(())
}

/// Writes zeros behind the blocks that a file has, up to so many, and syncs it.
fn extend<A: Advance>(
    alloc: Global,
    file: &File,
    had: u64,
    blocks: u64,
    advance: &mut A,
) -> io::Result<()>
    requires { blocks ≤ 4194304 }
{
    let piece = vec![in alloc; [0_u8; 512]; PIECE as usize]?;
    let mut first = had;
    while first < blocks {
        let count = (blocks - first).min(PIECE);
        let bytes = piece[..count as usize].as_flattened();
        file.write_all_at(bytes, first * 512)?;
        first += count;
        advance.advances(Work::Extend, first * 512, blocks * 512);
    }
    file.sync_all()
}

/// Makes what a folder says of its files last.
fn sync_folder<R: Files<File = File>>(rt: &R, dir: &str) -> Result<(), Fault> {
    let folder = match File::open(rt, dir) {
        Ok(folder) => folder,
        Err(e) => return Err(of(Part::Itself, e)),
    };
    match folder.sync_all() {
        Ok(()) => Ok(()),
        Err(e) => Err(of(Part::Itself, e)),
    }
}

/// What the failure of a call on a part of the folder is.
fn of(part: Part, e: io::Error) -> Fault {
    Fault::Folder(FolderFault::of(part, e))
}
