use crate::cutting::cut_log;
use crate::fault::Fault;
use crate::finding::find_commit;
use crate::listing::list_commits;
use crate::looking::{look_back, look_over};
use crate::seen::Seen;
use crate::source::{Source, check_reaches, open};
use crate::until::Until;
use als_folder::Folder;
use als_progress::{Advance, Watched, Work};
use als_record::{Key, Lsn, SLOT_COUNT, TransId, TransactionRow, TransactionState};
use als_text::{ShownImage, ShownRow};
use std::fs::File;
use std::io::{Take, Write};
use std::rt::Files;

/// Writes the text of the log of a file or a folder, up to the last record that a look takes, and
/// answers where it ends.
///
/// `advance` receives how far it was read. As `cut_log`. Folder, BadControl: the folder or a file of it failed, another program has it, or
/// nothing says how far its log is acknowledged.
pub fn cut<R: AllocGlobal + Files<File = File>, A: Advance, O: Write>(
    rt: &R,
    path: &str,
    until: Until,
    advance: &mut A,
    output: &mut O,
) -> Result<Lsn, Fault> {
    let (reader, folder) = watched(open(rt, path)?, until, advance)?;
    let end = cut_log(rt.alloc(), reader, until, output)?;
    drop(folder);
    Ok(end)
}

/// Where the log of a file or a folder ends in front of a transaction's commit record.
///
/// As `find_commit`, and Folder and BadControl as `cut`.
pub fn commit_of<R: AllocGlobal + Files<File = File>, A: Advance>(
    rt: &R,
    path: &str,
    trans: TransId,
    advance: &mut A,
) -> Result<Lsn, Fault> {
    let (reader, folder) = watched(open(rt, path)?, Until::End, advance)?;
    let lsn = find_commit(rt.alloc(), reader, trans)?;
    drop(folder);
    Ok(lsn)
}

/// Prints what the commits up to the last record that a look takes left at a key, as `als get` does:
/// `VALUE commits=C lsn=L`, with `-` where the key has nothing.
///
/// As `look_back`, and Folder and BadControl as `cut`. Stream: the output failed too.
pub fn get<R: AllocGlobal + Files<File = File>, A: Advance, O: Write>(
    rt: &R,
    path: &str,
    key: Key,
    until: Until,
    advance: &mut A,
    output: &mut O,
) -> Result<(), Fault> {
    let seen = seen_in(rt, path, until, advance)?;
    let (commits, lsn) = (seen.commits(), seen.last().0);
    let value = seen.value(key);
    writeln!(output, "{} commits={commits} lsn={lsn}", ShownImage(&value))?;
    Ok(())
}

/// Prints what they left at each key that has a value, a line each in key order, as `als takeover`
/// does; one line `empty` where none has.
///
/// As `get`.
pub fn show<R: AllocGlobal + Files<File = File>, A: Advance, O: Write>(
    rt: &R,
    path: &str,
    until: Until,
    advance: &mut A,
    output: &mut O,
) -> Result<(), Fault> {
    let seen = seen_in(rt, path, until, advance)?;
    let mut is_empty = true;
    for page in 0..seen.pages() {
        if list_page(&seen, page, output)? {
            is_empty = false;
        }
    }
    if is_empty {
        writeln!(output, "empty")?;
    }
    Ok(())
}

/// A line for each slot that has a value. Whether there was one is answered.
fn list_page<O: Write>(seen: &Seen, page: u32, output: &mut O) -> Result<bool, Fault> {
    let mut is_listed = false;
    for slot in 0..SLOT_COUNT as u8 {
        let value = seen.value(Key { page, slot });
        if value.is_some() {
            writeln!(output, "{page}/{slot} {}", ShownImage(&value))?;
            is_listed = true;
        }
    }
    Ok(is_listed)
}

/// Prints how the log of a file or a folder stands at the last record that a look takes: a line
/// `pages=N end=E greatest=G commits=C last=L transactions=T doubts=D`, and then each transaction that
/// has not ended, as `als status` does.
///
/// As `get`.
pub fn status<R: AllocGlobal + Files<File = File>, A: Advance, O: Write>(
    rt: &R,
    path: &str,
    until: Until,
    advance: &mut A,
    output: &mut O,
) -> Result<(), Fault> {
    let (reader, folder) = watched(open(rt, path)?, until, advance)?;
    let (seen, standing) = look_over(rt.alloc(), reader, until)?;
    drop(folder);
    let (end, greatest) = (standing.end.0, standing.greatest.0);
    let (pages, commits, last) = (seen.pages(), seen.commits(), seen.last().0);
    let count = standing.rows.len();
    let doubts = doubts_in(standing.rows.as_slice());
    writeln!(
        output,
        "pages={pages} end={end} greatest={greatest} commits={commits} last={last} transactions={count} doubts={doubts}"
    )?;
    for row in standing.rows.iter() {
        writeln!(output, "{}", ShownRow(row))?;
    }
    Ok(())
}

/// How many of these transactions are in doubt.
fn doubts_in(rows: &[TransactionRow]) -> usize {
    let mut count = 0;
    for row in rows.iter() {
        if row.state == TransactionState::Prepared && count < rows.len() {
            count += 1;
        }
    }
    count
}

/// Prints a line for each commit of the log of a file or a folder: its LSN, its transaction, and the
/// keys that it writes. Where a record is not sound, those before it are printed, and then it is
/// refused.
///
/// As `find_commit`, and Folder and BadControl as `cut`. Stream: the output failed too.
pub fn commits<R: AllocGlobal + Files<File = File>, A: Advance, O: Write + Drop>(
    rt: &R,
    path: &str,
    advance: &mut A,
    output: O,
) -> Result<(), Fault> {
    let (reader, folder) = watched(open(rt, path)?, Until::End, advance)?;
    list_commits(rt.alloc(), reader, output)?;
    drop(folder);
    Ok(())
}

/// What the commits of a file's or a folder's log left.
fn seen_in<R: AllocGlobal + Files<File = File>, A: Advance>(
    rt: &R,
    path: &str,
    until: Until,
    advance: &mut A,
) -> Result<Seen, Fault> {
    let (reader, folder) = watched(open(rt, path)?, until, advance)?;
    let seen = look_back(rt.alloc(), reader, until)?;
    drop(folder);
    Ok(seen)
}

/// A source to be read up to there, that tells how far it was read; and its folder.
fn watched<A: Advance + Drop>(
    source: Source,
    until: Until,
    advance: A,
) -> Result<(Watched<Take<File>, A>, Option<Folder>), Fault> {
    check_reaches(&source, until)?;
    let whole = source.reach(until);
    let (reader, folder) = source.into_parts();
    Ok((Watched::new(reader, Work::Judge, whole, advance), folder))
}
