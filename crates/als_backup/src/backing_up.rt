ghost use Rattle.std.specs.Prelude.{◌≤◌, OnOk};
ghost use Rattle.als_lookback.specs.Judged.{position_of};

use crate::comparing::Compared;
use crate::fault::Fault;
use crate::reading::recall;
use crate::said::Said;
use crate::session::copy_session;
use crate::source::{Asked, compare_with, connect, history_of, page_count, rank_of};
use crate::text::Text;
use als_epochs::History;
use als_operate::Fault as NodeFault;
use als_record::{LogHeader, Lsn};
use als_ship::Fault as SessionFault;
use std::fs::{File, OpenOptions};
use std::io::Write;
use std::net::Net;
use std::os::unix::fs::OpenOptionsExt;
use std::rt::Files;

/// Writes the log of a source up to the end that it has acknowledged when it is asked.
///
/// Session, Stream: the source went away, or nobody serves there. Look: what came is no log, or the output
/// failed. NoPages: no page count is the source's. Memory: an allocation failed.
pub fn backup<R: AllocGlobal + Net, O: Write>(
    rt: &R,
    asked: Asked<'_>,
    output: &mut O,
) -> Result<Said, Fault> {
    let pages = page_count(rt, asked)?;
    let mut text = Text::new(rt.alloc(), pages)?;
    let end = rank_of(rt, asked)?.end;
    check_end(&text, end)?;
    let theirs = History::empty();
    let (mut reader, mut writer) = connect(rt, asked)?;
    output.write_all(&LogHeader { pages }.encode())?;
    let own = copy_session(
        rt.alloc(),
        Compared::nothing(),
        &mut text,
        &theirs,
        end,
        &mut reader,
        &mut writer,
        output,
    )?;
    output.flush()?;
    Ok(said(&text, &own, text.position()))
}

/// Appends to a file what a source's log has behind it, up to the end that the source has acknowledged when
/// it is asked, and syncs it. A file that is not there, or empty, becomes a backup from the first byte on.
///
/// OtherLog: the source has another log. Session: it has less of one (Gap). Nothing was written then. Else
/// as `backup`.
pub fn resume<R: AllocGlobal + Files<File = File> + Net>(
    rt: &R,
    asked: Asked<'_>,
    path: &str,
) -> Result<Said, Fault> {
    let mut file = open_to_append(rt, path)?;
    if file.metadata()?.len() == 0 {
        let said = backup(rt, asked, &mut file)?;
        file.sync_all()?;
        return Ok(said);
    }
    let mut text = recall(rt.alloc(), &mut file)?;
    let said = go_on(rt, asked, &mut text, &mut file)?;
    file.sync_all()?;
    Ok(said)
}

/// Appends to an output that has a text what a source's log has behind it.
fn go_on<R: AllocGlobal + Net, O: Write>(
    rt: &R,
    asked: Asked<'_>,
    text: &mut Text,
    output: &mut O,
) -> Result<Said, Fault> {
    let from = text.position();
    check_pages(asked, text)?;
    let end = rank_of(rt, asked)?.end;
    let theirs = seals_below(&history_of(rt, asked, text.pages())?, Lsn(from));
    let compared = compare_with(rt, asked, text, theirs.epoch())?;
    check_end(text, end)?;
    let (mut reader, mut writer) = connect(rt, asked)?;
    let own = copy_session(
        rt.alloc(),
        compared,
        text,
        &theirs,
        end,
        &mut reader,
        &mut writer,
        output,
    )?;
    Ok(said(text, &own, text.position().saturating_sub(from)))
}

/// That a source's log does not end below a text.
fn check_end(text: &Text, end: u64) -> Result<(), Fault>
    ensures { OnOk result (position_of text.now ≤ end) }
{
    if text.position() <= end {
        Ok(())
    } else {
        Err(Fault::from(SessionFault::Gap))
    }
}

/// That a file is of a database of as many pages as was said.
fn check_pages(asked: Asked<'_>, text: &Text) -> Result<(), Fault> {
    match asked.pages {
        Some(pages) if pages != text.pages() => Err(Fault::Node(NodeFault::OtherLog)),
        Some(_) | None => Ok(()),
    }
}

/// A file that may be read, and is only appended to. It is made where it is not there, for its owner alone.
pub(crate) fn open_to_append<R: Files<File = File>>(rt: &R, path: &str) -> Result<File, Fault> {
    let file = OpenOptions::new()
        .read(true)
        .append(true)
        .create(true)
        .mode(0o600)
        .open(rt, path)?;
    Ok(file)
}

/// What is said of a text that was copied from a source with this history.
pub(crate) fn said(text: &Text, own: &History, new: u64) -> Said {
    let end = text.end();
    let summary = text.summary(0);
    let digest = summary.digest;
    let history = seals_below(own, Lsn(end.0.saturating_add(1)));
    Said {
        end,
        history,
        digest,
        new,
    }
}

/// The takeovers of a history that were sealed below an LSN.
fn seals_below(history: &History, lsn: Lsn) -> History {
    let mut front = History::empty();
    for seal in history.seals() {
        let seal = Lsn(*seal);
        if seal.0 < lsn.0 && front.takes(seal) {
            front.push(seal);
        }
    }
    front
}
