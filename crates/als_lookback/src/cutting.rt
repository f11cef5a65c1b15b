ghost use Rattle.std.specs.Prelude.{◌≡◌, ℕ, List, [], ◌++◌, Option, IfOk, IfErr, OnOk, false};
ghost use Rattle.std.specs.Io.KnownBytes.{Appends};
ghost use Rattle.als_record.specs.declared.record.Record.{Record as AnyRecord};
ghost use Rattle.als_record.specs.LogText.{header_bytes, log_text, spellings, end_of};
ghost use Rattle.als_record.specs.Validity.{IsValidLog};
ghost use Rattle.als_lookback.specs.Fronts.{EndsWithin, IsFrontOf};
ghost use Rattle.als_lookback.specs.Readings.{Reads, HasStopped};
ghost use Rattle.als_lookback.specs.Refusals.{RefusesLook, IsOfTaker};

use crate::fault::Fault;
use crate::reading::Reading;
use crate::spelled::Spelled;
use crate::until::Until;
use als_record::{FIRST_LSN, LogHeader, Lsn};
use std::alloc::Global;
use std::io::{Read, Write};

/// So many bytes are written at once, or those of the longest record more.
const PIECE: usize = 65_536;

/// Writes the text of a log up to the last record that a look takes, and answers where that ends.
/// Where it is refused, what was written is of no use.
///
/// InHeader, PastEnd: no record ends there. BadHeader, Shape, Invalid, Cut: the text is none of a log
/// up to there. Stream: the reader or the writer failed. Memory: an allocation failed.
pub fn cut_log<R: Read + Drop, W: Write>(
    alloc: Global,
    reader: R,
    until: Until,
    writer: &mut W,
) -> Result<Lsn, Fault>
    // What was written is the text of the front of the log that the look takes.
    ensures cuts { IfOk result (λ end. (pages : ℕ) × (front : List AnyRecord)
        × IsFrontOf (R.remaining reader) until pages front × (end.0 ≡ end_of front)
        × Appends (W.contents writer.old) (W.contents writer.new) (log_text pages front)) }
    ensures fails { IfErr result (RefusesLook (R.remaining reader) until) }
{
    check_begins(until)?;
    let mut reading = Reading::new(alloc, reader)?;
    put_header(reading.pages(), writer)?;
    pour(alloc, &mut reading, until, writer)?;
    Ok(reading.end())
}

/// Writes the header of a log.
fn put_header<W: Write>(pages: u32, writer: &mut W) -> Result<(), Fault>
    ensures ok { OnOk result (Appends (W.contents writer.old) (W.contents writer.new)
        (header_bytes pages)) }
    ensures err { IfErr result IsOfTaker }
{
    let header = LogHeader { pages }.encode();
    put(&header, writer)
}

/// Writes bytes.
fn put<W: Write>(bytes: &[u8], writer: &mut W) -> Result<(), Fault>
    ensures ok { OnOk result (Appends (W.contents writer.old) (W.contents writer.new) bytes.now) }
    ensures err { IfErr result IsOfTaker }
{
    writer.write_all(bytes)?;
    Ok(())
}

/// That an LSN is not within the header.
pub(crate) fn check_begins(until: Until) -> Result<(), Fault>
    ensures ok { OnOk result (EndsWithin until []) }
    ensures err { IfErr result (λ fault. (text : Option (List ℕ)) → RefusesLook text until fault) }
{
    match until {
        Until::At(lsn) if lsn.0 < FIRST_LSN.0 => Err(Fault::InHeader),
        Until::At(_) | Until::End => Ok(()),
    }
}

/// Writes the records that a look takes, piece by piece.
#[tactic(auto, using(crate::proofs::Taken::poured_none, crate::proofs::Taken::poured_step))]
fn pour<R: Read, W: Write>(
    alloc: Global,
    reading: &mut Reading<R>,
    until: Until,
    writer: &mut W,
) -> Result<(), Fault>
    requires within { EndsWithin until reading.old.log }
    ensures ok { OnOk result ((taken : List AnyRecord)
        × (reading.new.log ≡ reading.old.log ++ taken)
        × HasStopped until reading.new × EndsWithin until reading.new.log
        × Appends (W.contents writer.old) (W.contents writer.new) (spellings taken)) }
    ensures same { reading.new.pages ≡ reading.old.pages }
    ensures valid { OnOk result (IsValidLog reading.new.pages reading.new.log) }
    ensures text { OnOk result ((text : Option (List ℕ)) → Reads text reading.old
        → Reads text reading.new) }
    ensures err { IfErr result (λ fault. (text : Option (List ℕ)) → Reads text reading.old
        → RefusesLook text until fault) }
{
    let mut spelled = Spelled {
        bytes: Vec::new(alloc),
    };
    let _ = reading.end();
    for _ in 0..u64::MAX {
        spelled.bytes.clear();
        let more = gather(reading, until, &mut spelled)?;
        put(&spelled.bytes, writer)?;
        if !more {
            return Ok(());
        }
    }
    Err(Fault::Stream)
}

/// Gathers the spellings of the next records that a look takes, until they are a piece. `false`: the
/// look has stopped.
#[tactic(auto, using(crate::proofs::Taken::gathered_none, crate::proofs::Taken::gathered_one))]
fn gather<R: Read>(
    reading: &mut Reading<R>,
    until: Until,
    spelled: &mut Spelled,
) -> Result<bool, Fault>
    requires within { EndsWithin until reading.old.log }
    ensures ok { IfOk result (λ more. (taken : List AnyRecord)
        × (reading.new.log ≡ reading.old.log ++ taken)
        × (spelled.new.bytes.items ≡ spelled.old.bytes.items ++ spellings taken)
        × EndsWithin until reading.new.log
        × (more ≡ false → HasStopped until reading.new)) }
    ensures same { reading.new.pages ≡ reading.old.pages }
    ensures valid { OnOk result (IsValidLog reading.new.pages reading.new.log) }
    ensures text { OnOk result ((text : Option (List ℕ)) → Reads text reading.old
        → Reads text reading.new) }
    ensures err { IfErr result (λ fault. (text : Option (List ℕ)) → Reads text reading.old
        → RefusesLook text until fault) }
{
    let _ = reading.end();
    for _ in 0..u64::MAX {
        if spelled.bytes.len() >= PIECE {
            return Ok(true);
        }
        let more = reading.take_next(until, spelled)?;
        if !more {
            return Ok(false);
        }
    }
    Err(Fault::Stream)
}
