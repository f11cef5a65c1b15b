use crate::refusal::Refusal;
use als_fault::FaultKind;
use als_folder::{Part, Trouble, Wrong};
use als_record::LogHeader;
use std::alloc::AllocError;
use std::fs::{self, File};
use std::io::Write;
use std::os::unix::fs::FileExt;
use std::path::PathBuf;
use std::rt::Files;

/// Says that a log has another number of blocks than was asked for: the number is for new databases
/// alone.
pub fn tell<R: AllocGlobal + Files<File = File>, E: Write>(
    rt: &R,
    dir: &str,
    asked: u64,
    errors: &mut E,
) {
    match blocks_of(rt, dir) {
        Ok(Some(blocks)) if blocks != asked => {
            // Where it can't be said, `als status` shows what there is.
            let _ = writeln!(
                errors,
                "als: {dir}: the log of this database has {blocks} blocks; --log-blocks {asked} is for a new one"
            );
        }
        Ok(_) | Err(_) => {}
    }
}

/// Says why the folder of a primary is refused where it has no database, or one of other sizes than are asked
/// for.
pub fn tell_primary<R: AllocGlobal + Files<File = File>, E: Write>(
    rt: &R,
    dir: &str,
    pages: Option<u64>,
    log_blocks: Option<u64>,
    refusal: Refusal,
    errors: &mut E,
) {
    // Where it can't be said, the status has to do.
    let _ = match refusal.kind {
        FaultKind::Device if is_vacant(rt, dir, refusal) => writeln!(
            errors,
            "als: {dir}: there is no database; als new {dir} --pages N lays a new, empty one out"
        ),
        FaultKind::BadControl => match (pages, pages_of(rt, dir)) {
            (Some(asked), Some(pages)) if asked != pages => writeln!(
                errors,
                "als: {dir}: the database has {pages} pages, and --pages says {asked}"
            ),
            _ => Ok(()),
        },
        FaultKind::BadConfig => match (log_blocks, blocks_of(rt, dir)) {
            (Some(asked), Ok(Some(blocks))) if asked > blocks => writeln!(
                errors,
                "als: {dir}: the log of this database has {blocks} blocks, and --log-blocks says {asked}"
            ),
            _ => Ok(()),
        },
        _ => Ok(()),
    };
}

/// Whether a folder is refused because it has no database, and a new one may be laid out there: there is no
/// control block, nor a link in its place that leads nowhere.
fn is_vacant<R: AllocGlobal + Files<File = File>>(rt: &R, dir: &str, refusal: Refusal) -> bool {
    let misses_control = matches!(
        refusal.trouble,
        Some(Trouble {
            part: Part::Control,
            wrong: Wrong::Missing
        })
    );
    misses_control && matches!(has_link(rt, dir), Ok(false))
}

/// Whether a link stands in a folder in place of a control block that is not there.
fn has_link<R: AllocGlobal + Files<File = File>>(rt: &R, dir: &str) -> Result<bool, AllocError> {
    let folder = PathBuf::from_str(rt.alloc(), dir)?;
    let path = folder.join(rt.alloc(), Part::Control.file_name())?;
    Ok(fs::symlink_metadata(rt, path.as_path()).is_ok())
}

/// How many pages the database of a folder has by its log's header. None: that can't be read.
fn pages_of<R: AllocGlobal + Files<File = File>>(rt: &R, dir: &str) -> Option<u64> {
    let folder = PathBuf::from_str(rt.alloc(), dir).ok()?;
    let path = folder.join(rt.alloc(), Part::Log.file_name()).ok()?;
    let file = File::open(rt, path.as_path()).ok()?;
    let mut front = [0; 16];
    file.read_exact_at(front.as_mut_slice(), 0).ok()?;
    match LogHeader::decode(front.as_slice()) {
        Ok(Some(header)) => Some(u64::from(header.pages)),
        Ok(None) | Err(_) => None,
    }
}

/// How many blocks the log of a folder's database has. None: it has no database.
fn blocks_of<R: AllocGlobal + Files<File = File>>(
    rt: &R,
    dir: &str,
) -> Result<Option<u64>, AllocError> {
    let folder = PathBuf::from_str(rt.alloc(), dir)?;
    let control = folder.join(rt.alloc(), Part::Control.file_name())?;
    if fs::metadata(rt, control.as_path()).is_err() {
        return Ok(None);
    }
    let log = folder.join(rt.alloc(), Part::Log.file_name())?;
    match fs::metadata(rt, log.as_path()) {
        Ok(found) => Ok(Some(found.len() / 512)),
        Err(_) => Ok(None),
    }
}
