//! The file beside a folder that keeps what its log has above an LSN, by name
//! `DIR.past-LSN-to-END.log`.
//!
//! 1. It is written under another name, in a file that is made new, so that no link is followed.
//! 2. It is synced, gets its name, and then the folder that it is in is synced.
//! 3. Where there is a file of the name, it has to have these very bytes: an earlier call that was
//!    stopped has kept them.
use crate::copying::copy;
use crate::fault::Fault;
use als_lookback::Fault as LookFault;
use als_progress::{Advance, Watched, Work};
use als_record::Lsn;
use std::fs::{self, File, OpenOptions};
use std::io::{ErrorKind, Read, Seek, SeekFrom};
use std::os::unix::fs::OpenOptionsExt;
use std::path::Path;
use std::rt::Files;

/// Keeps the bytes of a log between two offsets in a file beside a folder, and makes it last. Where
/// there are none, there is no file. `advance` receives how many are kept.
///
/// Look: the log or the file failed, or an allocation. Kept: there is such a file, with something else.
pub(crate) fn keep_past<R: AllocGlobal + Files<File = File>, A: Advance>(
    rt: &R,
    dir: &str,
    log: File,
    from: Lsn,
    to: Lsn,
    advance: &mut A,
) -> Result<(), Fault> {
    if from.0 >= to.0 {
        return Ok(());
    }
    let mut log = log;
    log.seek(SeekFrom::Start(from.0))?;
    let count = to.0 - from.0;
    let mut log = Watched::new(log.take(count), Work::Keep, count, advance);
    let beside = beside(rt, dir)?;
    let name = format!(in rt.alloc(); "{beside}.past-{}-to-{}.log", from.0, to.0)?;
    match fs::symlink_metadata(rt, name.as_str()) {
        Ok(found) => {
            if !found.is_file() || found.len() != count {
                return Err(Fault::Kept);
            }
            let mut kept = File::open(rt, name.as_str())?;
            check_same(&mut log, &mut kept, count)?;
            kept.sync_all()?;
        }
        Err(e) if e.kind() == ErrorKind::NotFound => write_new(rt, name.as_str(), &mut log, count)?,
        Err(e) => return Err(Fault::from(e)),
    }
    sync_parent(rt, name.as_str())
}

/// What names of files beside a folder begin with: its path.
fn beside<R: AllocGlobal + Files<File = File>>(rt: &R, dir: &str) -> Result<String, Fault> {
    let trimmed = dir.trim_end_matches('/');
    let last = trimmed.rsplit('/').next().unwrap_or("");
    if last == "" || last == "." || last == ".." {
        let whole = rt.canonicalize(rt.alloc(), dir)?;
        return Ok(whole.into_string());
    }
    Ok(format!(in rt.alloc(); "{trimmed}")?)
}

/// Writes all that is left of a front of the log into a new file, and gives it its name. It has to be so
/// many bytes.
fn write_new<R: AllocGlobal + Files<File = File>, L: Read>(
    rt: &R,
    name: &str,
    log: &mut L,
    count: u64,
) -> Result<(), Fault> {
    let made = format!(in rt.alloc(); "{name}.new")?;
    match fs::remove_file(rt, made.as_str()) {
        Ok(()) => {}
        Err(e) if e.kind() == ErrorKind::NotFound => {}
        Err(e) => return Err(Fault::from(e)),
    }
    match fill_new(rt, made.as_str(), log, count) {
        Ok(()) => {}
        Err(fault) => {
            // Its room is given back.
            let _ = fs::remove_file(rt, made.as_str());
            return Err(fault);
        }
    }
    fs::rename(rt, made.as_str(), name)?;
    Ok(())
}

/// Writes all that is left of a front of the log into a new file, which only its owner may read or
/// write, and syncs it. It has to be so many bytes.
fn fill_new<R: AllocGlobal + Files<File = File>, L: Read>(
    rt: &R,
    made: &str,
    log: &mut L,
    count: u64,
) -> Result<(), Fault> {
    let mut file = OpenOptions::new()
        .write(true)
        .create_new(true)
        .mode(0o600)
        .open(rt, made)?;
    if copy(log, &mut file)? != count {
        return Err(Fault::Look(LookFault::Stream));
    }
    file.sync_all()?;
    Ok(())
}

/// That the next bytes of two readers are the same, as many as these.
fn check_same<A: Read, B: Read>(one: &mut A, other: &mut B, count: u64) -> Result<(), Fault> {
    let mut left = count;
    let mut piece = [0_u8; 4_096];
    let mut beside = [0_u8; 4_096];
    while left > 0 {
        let asked = left.min(4_096) as usize;
        fill(one, &mut piece[..asked])?;
        fill(other, &mut beside[..asked])?;
        if piece[..asked] != beside[..asked] {
            return Err(Fault::Kept);
        }
        left -= asked as u64;
    }
    Ok(())
}

/// Reads as many bytes as a piece has. Look: there are fewer, or the reader failed.
fn fill<R: Read>(reader: &mut R, piece: &mut [u8]) -> Result<(), Fault> {
    reader.read_exact(piece)?;
    Ok(())
}

/// Makes a name last: the folder that it is in is synced.
fn sync_parent<R: Files<File = File>>(rt: &R, name: &str) -> Result<(), Fault> {
    let parent = match Path::new(name).parent() {
        Some(parent) => parent.to_string_lossy(),
        None => "",
    };
    let parent = if parent == "" { "." } else { parent };
    let folder = File::open(rt, parent)?;
    folder.sync_all()?;
    Ok(())
}
