ghost use Rattle.std.specs.Prelude.{◌≡◌, ◌≤◌, [], OnOk, OnErr};
ghost use Rattle.als_record.specs.LogText.{end_of};
ghost use Rattle.als_ship.specs.Vouching.{AnswersAll, AnswersOne, AnswersPart};
ghost use Rattle.als_lookback.specs.Judged.{position_of};
ghost use Rattle.als_backup.specs.Texts.{TakesFrame, TakesFrames, AcknowledgesNothing};

use crate::fault::Fault;
use crate::frames::fresh;
use crate::text::Text;
use als_lookback::Fault as LookFault;
use als_record::FIRST_LSN;
use als_wire::{read_data, write_acknowledged};
use std::alloc::Global;
use std::io::{Read, Write};

/// Takes frames of an epoch until all below an end has come, and writes what is new of each.
///
/// Session: a frame is of another epoch, begins past what has come, or is none; or the stream ended or
/// failed. Look: what came is no log that ends there, or the output failed. Memory: an allocation failed.
pub fn fetch<R: Read, W: Write, O: Write>(
    alloc: Global,
    text: &mut Text,
    epoch: u32,
    end: u64,
    reader: &mut R,
    writer: &mut W,
    output: &mut O,
) -> Result<(), Fault>
    requires below { position_of text.old ≤ end }
    // What was written is what came of the text, up to the end, and a record ends there.
    ensures fetched { OnOk result (TakesFrames epoch text.old text.new (R.remaining reader.old)
        (R.remaining reader.new) (O.contents output.old) (O.contents output.new)) }
    ensures whole { OnOk result ((end_of text.new.log ≡ end) × (text.new.kept ≡ [])) }
    ensures answers { OnOk result (AnswersAll 16 (W.contents writer.old) (W.contents writer.new)) }
    // Nothing is acknowledged, also where it fails.
    ensures fails { OnErr result (AcknowledgesNothing (W.contents writer.old)
        (W.contents writer.new)) }
    ensures pages { text.new.pages ≡ text.old.pages }
{
    for _ in 0..u64::MAX {
        if text.position() >= end {
            check_whole(text, end)?;
            return Ok(());
        }
        turn(alloc, text, epoch, end, reader, writer, output)?;
    }
    Err(Fault::Look(LookFault::Stream))
}

/// That the records end there, and no byte is left behind them.
fn check_whole(text: &Text, end: u64) -> Result<(), Fault>
    requires { position_of text.now ≤ end }
    ensures { OnOk result ((end_of text.now.log ≡ end) × (text.now.kept ≡ [])) }
{
    if text.end().0 == end {
        Ok(())
    } else {
        Err(Fault::Look(LookFault::Cut))
    }
}

/// Takes one frame, and answers it.
fn turn<R: Read, W: Write, O: Write>(
    alloc: Global,
    text: &mut Text,
    epoch: u32,
    end: u64,
    reader: &mut R,
    writer: &mut W,
    output: &mut O,
) -> Result<(), Fault>
    requires below { position_of text.old ≤ end }
    ensures takes { OnOk result (TakesFrame epoch text.old text.new (R.remaining reader.old)
        (R.remaining reader.new) (O.contents output.old) (O.contents output.new)) }
    ensures within { OnOk result (position_of text.new ≤ end) }
    ensures answers { OnOk result (AnswersOne 16 (W.contents writer.old) (W.contents writer.new)) }
    ensures begins { OnErr result (AnswersPart 16 (W.contents writer.old)
        (W.contents writer.new)) }
    ensures pages { text.new.pages ≡ text.old.pages }
{
    let (of, offset, bytes) = read_data(alloc, reader)?;
    let new = fresh(of, epoch, offset, bytes.as_slice(), text.position(), end)?;
    text.take(alloc, new)?;
    output.write_all(new)?;
    write_acknowledged(writer, FIRST_LSN)?;
    Ok(())
}
