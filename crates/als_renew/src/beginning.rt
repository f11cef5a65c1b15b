ghost use Rattle.std.specs.Prelude.{◌≡◌, ℕ, ◌+◌, ◌*◌, ◌<◌, ◌≤◌, ◌^◌, List, ◌++◌, length};
ghost use Rattle.std.specs.Prelude.{IfOk, IfErr, OnOk, ◌==◌, if◌then◌else◌, IsTrue};
ghost use Rattle.std.specs.List.{AllByRecursion};
ghost use Rattle.std.specs.Io.KnownBytes.{Appends};
ghost use Rattle.als_record.specs.declared.record.Record.{Record as AnyRecord};
ghost use Rattle.als_record.specs.LogText.{header_bytes, spellings, log_text, end_of};
ghost use Rattle.als_record.specs.Transactions.{unended, greatest_trans};
ghost use Rattle.als_record.specs.Validity.{is_valid, IsValidLog};
ghost use Rattle.als_lookback.specs.Doubts.{Doubt as AnyDoubt, doubts_in};
ghost use Rattle.als_lookback.specs.Seen.{IsSeenOf};
ghost use Rattle.als_renew.specs.Beginning.{beginning_of};
ghost use Rattle.als_renew.specs.Closing.{kept_number, closing};
ghost use Rattle.als_renew.specs.Refusals.{IsOfOutput, RefusesBegin};
ghost use Rattle.als_renew.specs.Renewed.{Begins, IsWrittenBelow, WritesPage, WritesPages};
ghost use Rattle.als_renew.specs.Renewed.{WritesBeginning};

use crate::carrying::{check_carriable, write_doubts};
use crate::fault::Fault;
use crate::number::spell_number;
use crate::page::spell_page;
use crate::reached::Reached;
use als_lookback::{Doubt, Seen, Until, look_over};
use als_record::{FIRST_LSN, LogHeader, Lsn, TransId};
use std::alloc::Global;
use std::io::{Read, Write};

/// Writes what a log begins with that goes on from an old one, and answers where it ends: a transaction for
/// each page, which leaves what the committed transactions of the old one leave; then each transaction that
/// is in doubt in it, prepared once more under its own number; and then, where the old log's greatest
/// TransID is above all of these, and not the last one that there is, an empty transaction of that number.
/// Where it is refused, what was written is of no use.
///
/// InDoubt: a transaction that is in doubt can't be carried on; nothing was written. Look: the old log can't
/// be read to its end, the output failed, or an allocation failed.
pub fn begin_log<R: Read + Drop, W: Write>(
    alloc: Global,
    reader: R,
    writer: &mut W,
) -> Result<Lsn, Fault>
    // What was written is the text of a valid log of which readers see what they see of the old one. The same
    // transactions are in doubt in it, and each of them wrote the same. Where the old log has not used the
    // last TransID, no transaction that begins behind it has a number of it.
    ensures begins { IfOk result (λ end.
        WritesBeginning (R.remaining reader) (W.contents writer.old) (W.contents writer.new) end.0) }
    ensures fails { IfErr result (RefusesBegin (R.remaining reader)) }
{
    let (seen, standing) = look_over(alloc, reader, Until::End)?;
    let mut seen = seen;
    let doubts = standing.doubts.as_slice();
    check_carriable(doubts, seen.pages())?;
    let number = number_to_keep(standing.greatest);
    let end = write_log(alloc, &mut seen, doubts, number, writer)?;
    Ok(end)
}

/// The number that all TransIDs to come are above: the greatest of the old log. Where that is the last one
/// that there is, none is above it, and they begin anew.
fn number_to_keep(greatest: TransId) -> TransId
    ensures { result.0 ≡ kept_number greatest.0 }
{
    if greatest.0 == u32::MAX {
        TransId(0)
    } else {
        greatest
    }
}

/// Writes the text of a log that leaves these images, in which these transactions are in doubt, and which has
/// a TransID that is not below a number. It answers where the log ends. The images are then of no use.
fn write_log<W: Write>(
    alloc: Global,
    seen: &mut Seen,
    doubts: &[Doubt],
    number: TransId,
    writer: &mut W,
) -> Result<Lsn, Fault>
    requires few { length doubts.now < 256 }
    ensures ok { IfOk result (λ end. (held : List AnyRecord)
        → IsSeenOf seen.old seen.old.pages held → IsValidLog seen.old.pages held
        → doubts.now ≡ doubts_in held
        → AllByRecursion (λ (d : AnyDoubt). seen.old.pages < d.trans) doubts.now
        → number.0 ≡ kept_number (greatest_trans held)
        → Begins seen.old.pages held (beginning_of seen.old.pages held)
        × (end.0 ≡ end_of (beginning_of seen.old.pages held))
        × Appends (W.contents writer.old) (W.contents writer.new)
        (log_text seen.old.pages (beginning_of seen.old.pages held))) }
    ensures fails { IfErr result IsOfOutput }
{
    let pages = write_pages(alloc, &*seen, writer)?;
    let carried = write_doubts(alloc, seen, doubts, pages, writer)?;
    let end = write_number(alloc, number, carried, writer)?;
    Ok(end)
}

/// Writes the header of a log, and a transaction for each page that has a value.
fn write_pages<W: Write>(alloc: Global, seen: &Seen, writer: &mut W) -> Result<Reached, Fault>
    ensures ok { IfOk result (λ to. (held : List AnyRecord)
        → IsSeenOf seen.now seen.now.pages held
        → WritesPages seen.now.pages seen.now.pages held (W.contents writer.old)
        (W.contents writer.new) to.greatest.0 to.end.0) }
    ensures most { IfOk result (λ to. to.end.0 ≤ 16 + 1046 * seen.now.pages) }
    ensures few { seen.now.pages < 2 ^ 32 }
    ensures fails { IfErr result IsOfOutput }
{
    put_header(seen.pages(), writer)?;
    let mut end = FIRST_LSN;
    let mut greatest = TransId(0);
    for page in 0..seen.pages() {
        let next = write_page(alloc, seen, page, end, writer)?;
        greatest = greatest_behind(greatest, page, end, next);
        end = next;
    }
    Ok(Reached { end, greatest })
}

/// The greatest TransID of a log once a page's records, which began there and end here, are behind it.
fn greatest_behind(greatest: TransId, page: u32, end: Lsn, next: Lsn) -> TransId
    requires few { page + 1 < 2 ^ 32 }
    ensures { result.0 ≡ (if next.0 == end.0 then greatest.0 else page + 1) }
{
    if next == end {
        greatest
    } else {
        TransId(page + 1)
    }
}

/// Writes an empty transaction of a number behind a log that is written so far, where the number is above
/// the log's greatest TransID, and answers where the log ends then.
fn write_number<W: Write>(
    alloc: Global,
    number: TransId,
    from: Reached,
    writer: &mut W,
) -> Result<Lsn, Fault>
    requires room { from.end.0 + 56 < 2 ^ 64 }
    ensures ok { IfOk result (λ next. (log : List AnyRecord) → IsTrue (is_valid log)
        → length (unended log) < 256 → from.end.0 ≡ end_of log
        → from.greatest.0 ≡ greatest_trans log
        → (next.0 ≡ end_of (log ++ closing number.0 log))
        × Appends (W.contents writer.old) (W.contents writer.new)
        (spellings (closing number.0 log))) }
    ensures fails { IfErr result IsOfOutput }
{
    if number.0 <= from.greatest.0 {
        return Ok(from.end);
    }
    let spelled = spell_number(alloc, number, from.end)?;
    put(&spelled.piece, writer)?;
    Ok(spelled.end)
}

/// Writes the header of a log.
fn put_header<W: Write>(pages: u32, writer: &mut W) -> Result<(), Fault>
    ensures ok { OnOk result (Appends (W.contents writer.old) (W.contents writer.new)
        (header_bytes pages)) }
    ensures err { IfErr result IsOfOutput }
{
    let header = LogHeader { pages }.encode();
    put(&header, writer)
}

/// Writes bytes.
pub(crate) fn put<W: Write>(bytes: &[u8], writer: &mut W) -> Result<(), Fault>
    ensures ok { OnOk result (Appends (W.contents writer.old) (W.contents writer.new) bytes.now) }
    ensures err { IfErr result IsOfOutput }
{
    writer.write_all(bytes)?;
    Ok(())
}

/// Writes the records of one page behind a log that ends there, and answers where they end.
fn write_page<W: Write>(
    alloc: Global,
    seen: &Seen,
    page: u32,
    end: Lsn,
    writer: &mut W,
) -> Result<Lsn, Fault>
    requires page { page < seen.now.pages }
    requires few { seen.now.pages < 2 ^ 32 }
    requires room { end.0 + 1046 < 2 ^ 64 }
    ensures ok { IfOk result (λ next. (held log : List AnyRecord)
        → IsSeenOf seen.now seen.now.pages held
        → IsWrittenBelow seen.now.pages page held log → end.0 ≡ end_of log
        → WritesPage seen.now.pages page held log (W.contents writer.old) (W.contents writer.new)
        next.0) }
    ensures most { IfOk result (λ next. next.0 ≤ end.0 + 1046) }
    ensures fails { IfErr result IsOfOutput }
{
    let spelled = spell_page(alloc, seen, page, end)?;
    put(&spelled.piece, writer)?;
    Ok(spelled.end)
}
