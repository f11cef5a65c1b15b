use crate::files::tell_look;
use crate::redo_lines::RedoLines;
use crate::refusal::Refusal;
use als_backup::{
    Asked, Fault as BackupFault, Restoring, Said, backup, backup_folder, restore, resume,
    resume_folder,
};
use als_command::Command;
use als_epochs::History;
use als_fault::FaultKind;
use als_progress::Advance;
use als_record::Lsn;
use std::alloc::{AllocError, Global};
use std::fs::File;
use std::io::Write;
use std::net::Net;
use std::random::RandomSource;
use std::rt::Files;
use std::sync::Wait;
use std::time::Clock;

impl From<BackupFault> for Refusal {
    fn from(fault: BackupFault) -> Refusal {
        Refusal {
            kind: fault.kind(),
            trouble: fault.trouble(),
        }
    }
}

/// `als backup` and `als restore`.
pub(crate) fn keep<
    R: AllocGlobal + Files<File = File> + Net + Wait + Clock + RandomSource + Clone + Drop,
    O: Write,
    E: Write,
>(rt: &R, seen: bool, command: Command, output: &mut O, errors: &mut E) -> Result<(), Refusal> {
    let mut lines = RedoLines::new(&mut *errors, rt, seen, false);
    match command {
        Command::Backup { .. } => {
            let outcome = back_up(rt, command, &mut lines, output);
            drop(lines);
            match outcome {
                Ok(said) => tell_said(rt.alloc(), &said, errors)?,
                Err(fault) => return Err(told(fault, errors)),
            }
        }
        Command::Restore { .. } => {
            let outcome = bring_back(rt, command, &mut lines, output);
            drop(lines);
            if let Err(fault) = outcome {
                return Err(told(fault, errors));
            }
        }
        _ => {}
    }
    Ok(())
}

/// Writes a backup, to a file that is gone on with or to the output.
fn back_up<R: AllocGlobal + Files<File = File> + Net, A: Advance, O: Write>(
    rt: &R,
    command: Command,
    advance: &mut A,
    output: &mut O,
) -> Result<Said, BackupFault> {
    let Command::Backup {
        from,
        dir,
        resume: file,
        pages,
        timeout,
        explain: _,
    } = command
    else {
        return Err(BackupFault::NoPages);
    };
    match (dir, file) {
        (Some(dir), Some(file)) => resume_folder(rt, dir, file, advance),
        (Some(dir), None) => backup_folder(rt, dir, advance, output),
        (None, file) => {
            let asked = Asked {
                from: from.unwrap_or(""),
                pages,
                timeout,
            };
            match file {
                Some(file) => resume(rt, asked, file),
                None => backup(rt, asked, output),
            }
        }
    }
}

/// Says what a backup is.
fn tell_said<E: Write>(alloc: Global, said: &Said, errors: &mut E) -> Result<(), AllocError> {
    let digits = hex::encode(alloc, said.digest.as_slice())?;
    let seals = spelled(alloc, &said.history)?;
    // Where it can't be said, `als verify` has the end and the digest.
    let _ = writeln!(
        errors,
        "end={} epoch={} seals={seals} new={} sha256={digits}",
        said.end.0,
        said.history.epoch(),
        said.new
    );
    Ok(())
}

/// The seals of a history, with commas between them.
fn spelled(alloc: Global, history: &History) -> Result<String, AllocError> {
    let mut text = String::new(alloc);
    for seal in history.seals() {
        if !text.is_empty() {
            text.push(',')?;
        }
        let seal = format!(in alloc; "{seal}")?;
        text.push_str(seal.as_str())?;
    }
    if text.is_empty() {
        text.push_str("none")?;
    }
    Ok(text)
}

/// The history with the seals of a list that has commas between them. None: it is no such list.
fn history_in(alloc: Global, list: Option<&str>) -> Result<Option<History>, AllocError> {
    let mut seals: Vec<Lsn> = Vec::new(alloc);
    let list = match list {
        None | Some("none") => return Ok(Some(History::empty())),
        Some(list) => list,
    };
    for seal in list.split(',') {
        let Ok(seal) = seal.parse::<u64>() else {
            return Ok(None);
        };
        seals.push(Lsn(seal))?;
    }
    Ok(History::of(seals.as_slice()))
}

/// Makes a node of a backup, and prints what it is.
fn bring_back<
    R: AllocGlobal + Files<File = File> + Net + Wait + Clock + RandomSource + Clone + Drop,
    A: Advance,
    O: Write,
>(rt: &R, command: Command, advance: &mut A, output: &mut O) -> Result<(), BackupFault> {
    let Command::Restore {
        path,
        dir,
        at,
        before_commit,
        log_blocks,
        seals,
        explain: _,
    } = command
    else {
        return Ok(());
    };
    let Some(history) = history_in(rt.alloc(), seals)? else {
        return Err(BackupFault::BadSeals);
    };
    let restoring = Restoring {
        path,
        dir,
        at,
        before_commit,
        log_blocks,
        history,
    };
    let restored = restore(rt, &restoring, advance)?;
    writeln!(
        output,
        "end={} pages={} log-blocks={} commits={}",
        restored.end.0, restored.pages, restored.log_blocks, restored.commits
    )?;
    Ok(())
}

/// The refusal, of which more is said where its number has several causes.
fn told<E: Write>(fault: BackupFault, errors: &mut E) -> Refusal {
    if let BackupFault::Look(fault) = fault {
        tell_look(fault, errors);
    }
    // Where it can't be said, the page of help has the causes.
    let _ = match fault {
        BackupFault::NotEmpty => writeln!(
            errors,
            "als: the folder is not empty: a node is restored into an empty one"
        ),
        BackupFault::TooFew { needed } => { writeln!(errors, "als: the log takes {needed} blocks") }
        BackupFault::NoPages => writeln!(
            errors,
            "als: the node's log begins with the header of no page count from 1 to 4096"
        ),
        BackupFault::BadSeals => writeln!(
            errors,
            "als: --seals is none, or rising LSNs with commas between them, up to 32 and not past the end"
        ),
        _ => Ok(()),
    };
    Refusal::from(fault)
}
