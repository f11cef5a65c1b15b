use crate::fault::Fault;
use crate::heads::whole_database_of;
use crate::judging::{before_pages, judge_log, judge_text};
use crate::log_text::text_of_file;
use crate::page_checking::check_folder;
use crate::quiet::Quiet;
use crate::restarting::restarted;
use crate::unsound::Unsound;
use als_comparing::HeldLog;
use als_drive::{Progress, listing, recover_telling};
use als_fault::FaultKind;
use als_folder::Folder;
use als_progress::{Advance, Work};
use als_ship::Fault as SessionFault;
use std::alloc::Global;
use std::fs;
use std::fs::File;
use std::io::Write;
use std::path::PathBuf;
use std::rt::Files;
use std::sync::Wait;

/// A sound log.
#[derive(Clone, Copy)]
struct Found {
    /// How many records it has.
    records: u64,
    /// Where it ends.
    end: u64,
    /// The SHA-256 of its text.
    digest: [u8; 32],
}

/// Tells whether a log file, or the folder of a standby, is sound. It prints `sound records=R
/// end=E sha256=X`, or `unsound lsn=L N Name`: where what is refused begins, 0 where it is no record,
/// and why. X is the SHA-256 of the log text up to E, in hexadecimal.
///
/// What is unsound is answered too. Stream: the file or the output failed. Folder: the folder or a
/// file of it failed, or another program has it. Memory: there was none for a copy of it.
pub fn verify<R: AllocGlobal + Files<File = File> + Wait, O: Write>(
    rt: &R,
    path: &str,
    output: &mut O,
) -> Result<(), Fault> {
    verify_telling(rt, path, &mut Quiet, output)
}

/// The same, and tells how far it has come.
pub fn verify_telling<R: AllocGlobal + Files<File = File> + Wait, P: Progress + Advance, O: Write>(
    rt: &R,
    path: &str,
    progress: &mut P,
    output: &mut O,
) -> Result<(), Fault> {
    match judge(rt, path, progress) {
        Ok(found) => {
            let Found {
                records,
                end,
                digest,
            } = found;
            let digits = hex::encode(rt.alloc(), digest.as_slice())?;
            writeln!(output, "sound records={records} end={end} sha256={digits}")?;
            Ok(())
        }
        Err(unsound) => {
            let Unsound { lsn, fault } = unsound;
            if is_finding(fault) {
                writeln!(output, "unsound lsn={lsn} {fault}")?;
            }
            Err(fault)
        }
    }
}

/// Whether a fault is one of what is read, and not of the reading.
pub(crate) fn is_finding(fault: Fault) -> bool {
    !matches!(
        fault.kind(),
        FaultKind::Memory | FaultKind::Stream | FaultKind::Device
    )
}

/// Reads and judges what stands at the path.
fn judge<R: AllocGlobal + Files<File = File> + Wait, P: Progress + Advance>(
    rt: &R,
    path: &str,
    progress: &mut P,
) -> Result<Found, Unsound> {
    if is_folder(rt, path)? {
        judge_folder(rt, path, progress)
    } else {
        judge_file(rt, path, progress)
    }
}

/// Whether a folder stands at the path.
fn is_folder<R: Files<File = File>>(rt: &R, path: &str) -> Result<bool, Fault> {
    Ok(fs::metadata(rt, path)?.is_dir())
}

/// Reads a log file.
fn judge_file<R: AllocGlobal + Files<File = File>, A: Advance>(
    rt: &R,
    path: &str,
    advance: &mut A,
) -> Result<Found, Unsound> {
    let (records, end) = judge_text(text_of_file(rt, path, advance)?, true, advance)?;
    let digest = digest_of_file(rt, path, end, advance)?;
    Ok(Found {
        records,
        end,
        digest,
    })
}

/// The SHA-256 of a log file up to there.
fn digest_of_file<R: AllocGlobal + Files<File = File>, A: Advance>(
    rt: &R,
    path: &str,
    end: u64,
    advance: &mut A,
) -> Result<[u8; 32], Fault> {
    digest_of(rt.alloc(), File::open(rt, path)?, end, advance)
}

/// The SHA-256 of a folder's log up to there.
fn digest_of_folder<R: AllocGlobal + Files<File = File>, A: Advance>(
    rt: &R,
    path: &str,
    end: u64,
    advance: &mut A,
) -> Result<[u8; 32], Fault> {
    let alloc = rt.alloc();
    let folder = PathBuf::from_str(alloc, path)?;
    let path = folder.join(alloc, "log.blk")?;
    digest_of(alloc, File::open(rt, path.as_path())?, end, advance)
}

/// So many bytes more are summed up at once.
const STEP: u64 = 8_388_608;

/// The SHA-256 of a file's first bytes, which it has.
fn digest_of<A: Advance>(
    alloc: Global,
    file: File,
    end: u64,
    advance: &mut A,
) -> Result<[u8; 32], Fault> {
    let mut log = HeldLog::new(file);
    let mut at = STEP.min(end);
    while at < end {
        let _ = sum_to(alloc, &mut log, at)?;
        advance.advances(Work::Digest, at, end);
        at += STEP.min(end - at);
    }
    sum_to(alloc, &mut log, end)
}

/// The SHA-256 of a file's bytes below there. What was summed up before is not read again.
fn sum_to(alloc: Global, log: &mut HeldLog<File>, end: u64) -> Result<[u8; 32], Fault> {
    match log.summary(alloc, 0, end) {
        Ok(summary) => Ok(summary.digest),
        Err(SessionFault::Memory) => Err(Fault::Memory),
        Err(_) => Err(Fault::Stream),
    }
}

/// Judges a folder's node, in the order in which a restart meets its parts: the control device, the log, its
/// room for a takeover, and then the pages in rising order, each against the log.
fn judge_folder<R: AllocGlobal + Files<File = File> + Wait, P: Progress + Advance>(
    rt: &R,
    path: &str,
    progress: &mut P,
) -> Result<Found, Unsound> {
    let folder = hold(rt, path)?;
    let (records, end) = judge_log(rt, &folder, progress)?;
    let digest = digest_of_folder(rt, path, end, progress)?;
    let restarted = restart(rt, &folder, progress);
    before_pages(restarted)?;
    check_folder(rt, &folder, progress)?;
    restarted?;
    Ok(Found {
        records,
        end,
        digest,
    })
}

/// The folder, for programs that read alone.
fn hold<R: AllocGlobal + Files<File = File>>(rt: &R, path: &str) -> Result<Folder, Fault> {
    Ok(Folder::hold_to_read(rt, path)?)
}

/// Opens a copy of a folder's devices as a restart does, redoes what it would redo, and reads each
/// page.
fn restart<R: AllocGlobal + Files<File = File> + Wait, P: Progress + Advance>(
    rt: &R,
    folder: &Folder,
    progress: &mut P,
) -> Result<(), Fault> {
    let files = folder.open_to_read(rt)?;
    let database = whole_database_of(rt.alloc(), &files)?;
    let (mut engine, readers) = restarted(rt, &files, &database, progress)?;
    drop(readers);
    recover_telling(rt, &mut engine, progress)?;
    listing(rt.alloc(), &mut engine)?;
    Ok(())
}
