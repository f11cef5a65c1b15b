use crate::backing_up::{open_to_append, said};
use crate::fault::Fault;
use crate::reading::{begin, check_front, pour, recall};
use crate::said::Said;
use als_lookback::{Until, open};
use als_progress::{Advance, Watched, Work};
use als_record::LogHeader;
use std::fs::File;
use std::io::Write;
use std::rt::Files;

/// Writes the log of a folder's node, which does not run, as far as it is acknowledged.
///
/// Look: the folder or a file of it failed, another program has it, its log is none, or the output failed.
/// `advance` receives how far it was read.
pub fn backup_folder<R: AllocGlobal + Files<File = File>, A: Advance, O: Write>(
    rt: &R,
    dir: &str,
    advance: &mut A,
    output: &mut O,
) -> Result<Said, Fault> {
    let source = open(rt, dir)?;
    let (history, whole) = (source.history(), source.reach(Until::End));
    let (reader, folder) = source.into_parts();
    let mut reader = Watched::new(reader, Work::Judge, whole, advance);
    let mut text = begin(rt.alloc(), &mut reader)?;
    let header = LogHeader {
        pages: text.pages(),
    };
    output.write_all(&header.encode())?;
    pour(rt.alloc(), &mut reader, &mut text, output)?;
    output.flush()?;
    drop(folder);
    Ok(said(&text, &history, text.position()))
}

/// Appends to a file what the log of a folder's node has behind it, and syncs it.
///
/// OtherLog: the node has another log. Session: it has less of one (Gap). Nothing was written then. Else as
/// `backup_folder`.
pub fn resume_folder<R: AllocGlobal + Files<File = File>, A: Advance>(
    rt: &R,
    dir: &str,
    path: &str,
    advance: &mut A,
) -> Result<Said, Fault> {
    let mut file = open_to_append(rt, path)?;
    if file.metadata()?.len() == 0 {
        let said = backup_folder(rt, dir, advance, &mut file)?;
        file.sync_all()?;
        return Ok(said);
    }
    let mut text = recall(rt.alloc(), &mut file)?;
    let from = text.position();
    let source = open(rt, dir)?;
    let (history, whole) = (source.history(), source.reach(Until::End));
    let (reader, folder) = source.into_parts();
    let mut reader = Watched::new(reader, Work::Judge, whole, advance);
    check_front(rt.alloc(), &mut reader, &text)?;
    pour(rt.alloc(), &mut reader, &mut text, &mut file)?;
    file.sync_all()?;
    drop(folder);
    Ok(said(&text, &history, text.position().saturating_sub(from)))
}
