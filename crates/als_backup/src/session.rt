ghost use Rattle.std.specs.Prelude.{◌≡◌, ◌≤◌, [], IfOk, OnOk};
ghost use Rattle.std.specs.Io.KnownBytes.{Consumes, Appends};
ghost use Rattle.als_record.specs.LogText.{end_of};
ghost use Rattle.als_wire.specs.Frames.{resume_bytes, epochs_bytes};
ghost use Rattle.als_lookback.specs.Judged.{position_of};
ghost use Rattle.als_backup.specs.Told.{FollowsOn};

use crate::comparing::Compared;
use crate::fault::Fault;
use crate::fetching::fetch;
use crate::text::Text;
use als_epochs::History;
use als_record::{LogHeader, Lsn};
use als_ship::Fault as SessionFault;
use als_wire::{read_epochs, write_resume};
use std::alloc::Global;
use std::io::{Read, Write};

/// Asks a source for the log behind an offset, and reads the history with which it answers.
///
/// BadFrame: what came is no history. Cut: the source hung up, as one does that has another page count.
pub(crate) fn meet<R: Read, W: Write>(
    pages: u32,
    from: u64,
    theirs: &History,
    reader: &mut R,
    writer: &mut W,
) -> Result<History, SessionFault>
    ensures asked { OnOk result (Appends (W.contents writer.old) (W.contents writer.new)
        (resume_bytes from pages theirs.now)) }
    ensures heard { IfOk result (λ own. Consumes (R.remaining reader.old) (R.remaining reader.new)
        (epochs_bytes own)) }
{
    write_resume(writer, Lsn(from), LogHeader { pages }, theirs)?;
    let own = read_epochs(reader)?;
    Ok(own)
}

/// Copies a source's log from where a text ends up to an end, once the source has said that the text is its
/// own so far, and answers the source's history. The session is not ended in order: who asks hangs up.
///
/// As `fetch`. Session, Cut: the source hung up, too.
pub fn copy_session<R: Read, W: Write, O: Write>(
    alloc: Global,
    compared: Compared,
    text: &mut Text,
    theirs: &History,
    end: u64,
    reader: &mut R,
    writer: &mut W,
    output: &mut O,
) -> Result<History, Fault>
    requires same { compared.end ≡ position_of text.old }
    requires below { position_of text.old ≤ end }
    // What was written is the source's text from there up to the end, as its frames have it.
    ensures follows { IfOk result (λ own. FollowsOn theirs.now own text.old text.new
        (R.remaining reader.old) (R.remaining reader.new) (W.contents writer.old)
        (W.contents writer.new) (O.contents output.old) (O.contents output.new)) }
    ensures whole { OnOk result ((end_of text.new.log ≡ end) × (text.new.kept ≡ [])) }
{
    let own = meet(text.pages(), compared.end(), theirs, reader, writer)?;
    fetch(alloc, text, own.epoch(), end, reader, writer, output)?;
    Ok(own)
}
