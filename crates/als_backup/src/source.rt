ghost use Rattle.std.specs.Prelude.{◌≡◌, IfOk};
ghost use Rattle.als_lookback.specs.Judged.{position_of};

use crate::comparing::{Compared, compare};
use crate::fault::Fault;
use crate::session::meet;
use crate::text::Text;
use als_compare::{Rank, Verdict, ask, ask_rank};
use als_epochs::History;
use als_operate::{Following, dial};
use als_record::FIRST_LSN;
use std::alloc::Global;
use std::net::{Net, OpenStream};

/// Which source is asked, and how.
#[derive(Clone, Copy, Debug)]
pub struct Asked<'a> {
    /// Where its log is served, `HOST:PORT`.
    pub from: &'a str,
    /// How many pages its database has. None: it is asked.
    pub pages: Option<u32>,
    /// So many seconds it may be silent. 0: as long as it likes.
    pub timeout: u64,
}

/// How many pages a database has at most.
const PAGES: u32 = 4_096;

/// How many powers of two are among these numbers.
const POWERS: u32 = 13;

impl<'a> Asked<'a> {
    /// Whom to connect to. No folder is meant.
    fn following(self) -> Following<'a> {
        Following {
            dir: "",
            from: self.from,
            pages: 1,
            log_blocks: 1,
            checkpoint_mb: 0,
            timeout: self.timeout,
        }
    }
}

/// A connection to a source, to be read and to be written.
pub(crate) fn connect<R: Net>(rt: &R, asked: Asked<'_>) -> Result<(R::Stream, R::Stream), Fault> {
    let writer = dial(rt, asked.following())?;
    let reader = writer.try_clone()?;
    Ok((reader, writer))
}

/// Up to where a source's log is acknowledged.
pub(crate) fn rank_of<R: Net>(rt: &R, asked: Asked<'_>) -> Result<Rank, Fault> {
    let (mut reader, mut writer) = connect(rt, asked)?;
    Ok(ask_rank(&mut reader, &mut writer)?)
}

/// The takeovers before a source, with which it answers a question for all of its log. The session is not
/// gone on with.
pub(crate) fn history_of<R: Net>(rt: &R, asked: Asked<'_>, pages: u32) -> Result<History, Fault> {
    let (mut reader, mut writer) = connect(rt, asked)?;
    Ok(meet(
        pages,
        FIRST_LSN.0,
        &History::empty(),
        &mut reader,
        &mut writer,
    )?)
}

/// Whether a source's log is the one of a text, over a connection of its own.
pub(crate) fn compare_with<R: Net>(
    rt: &R,
    asked: Asked<'_>,
    text: &Text,
    epoch: u32,
) -> Result<Compared, Fault>
    ensures { IfOk result (λ compared. compared.end ≡ position_of text.now) }
{
    let (mut reader, mut writer) = connect(rt, asked)?;
    compare(text, epoch, &mut reader, &mut writer)
}

/// How many pages the database of a source has: the number whose header its log begins with, powers of two
/// first. A source says of each over a connection of its own whether it is the one.
pub(crate) fn page_count<R: AllocGlobal + Net>(rt: &R, asked: Asked<'_>) -> Result<u32, Fault> {
    if let Some(pages) = asked.pages {
        return Ok(pages);
    }
    for place in 0..POWERS + PAGES {
        let pages = candidate(place);
        if has_pages(rt, rt.alloc(), asked, pages)? {
            return Ok(pages);
        }
    }
    Err(Fault::NoPages)
}

/// The page count at a place of those that are asked for.
fn candidate(place: u32) -> u32 {
    if place < POWERS {
        1 << place
    } else {
        place - POWERS + 1
    }
}

/// Whether a source's log begins with the header of so many pages.
fn has_pages<R: Net>(rt: &R, alloc: Global, asked: Asked<'_>, pages: u32) -> Result<bool, Fault> {
    let text = Text::new(alloc, pages)?;
    let (mut reader, mut writer) = connect(rt, asked)?;
    let verdict = ask(&text.summary(0), &mut reader, &mut writer)?;
    Ok(verdict == Verdict::Same)
}
