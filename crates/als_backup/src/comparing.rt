ghost use Rattle.std.specs.Prelude.{◌≡◌, IfOk, OnOk};
ghost use Rattle.std.specs.Io.KnownBytes.{Consumes, Appends};
ghost use Rattle.als_compare.specs.declared.verdict.Verdict.TheVariants.{Same};
ghost use Rattle.als_compare.specs.Frames.{question_bytes, answer_bytes};
ghost use Rattle.als_compare.specs.Summaries.{summary_of};
ghost use Rattle.als_lookback.specs.Judged.{position_of};
ghost use Rattle.als_backup.specs.Texts.{held_in};

use crate::fault::Fault;
use crate::text::Text;
use als_compare::{Verdict, ask};
use als_operate::Fault as NodeFault;
use als_record::FIRST_LSN;
use als_ship::Fault as SessionFault;
use std::io::{Read, Write};

/// A text of which a source has said that its own is the same up to there. Nothing else may be gone on
/// with: only `compare` makes one, and `nothing`.
#[derive(Clone, Copy)]
pub struct Compared {
    /// How long the text is.
    end: u64,
}

impl Compared {
    /// A header alone, of which nothing is to be compared.
    pub fn nothing() -> Compared
        ensures { result.end ≡ 16 }
    {
        Compared { end: FIRST_LSN.0 }
    }

    /// How long the text is.
    pub fn end(&self) -> u64
        ensures { result ≡ self.now.end }
    {
        self.end
    }
}

/// Asks a source over two streams whether its log is the one of a text, held in this epoch.
///
/// OtherLog: it has another one. Session: it has less of one (Gap), or none that goes on from it
/// (OtherEpoch); what came is no answer; or a stream ended or failed.
pub fn compare<R: Read, W: Write>(
    text: &Text,
    epoch: u32,
    reader: &mut R,
    writer: &mut W,
) -> Result<Compared, Fault>
    // The source was asked about this very text, and has said that its own is the same.
    ensures asked { OnOk result (Appends (W.contents writer.old) (W.contents writer.new)
        (question_bytes (summary_of epoch (held_in text.now)))) }
    ensures same { OnOk result (Consumes (R.remaining reader.old) (R.remaining reader.new)
        (answer_bytes Same)) }
    ensures end { IfOk result (λ compared. compared.end ≡ position_of text.now) }
{
    let question = text.summary(epoch);
    let verdict = ask(&question, reader, writer)?;
    check_same(epoch, verdict)?;
    Ok(Compared {
        end: text.position(),
    })
}

/// That a source has the same text.
fn check_same(epoch: u32, verdict: Verdict) -> Result<(), Fault>
    ensures { OnOk result (verdict ≡ Same) }
{
    match verdict {
        Verdict::Same => Ok(()),
        Verdict::Other => Err(Fault::Node(NodeFault::OtherLog)),
        Verdict::Shorter => Err(Fault::from(SessionFault::Gap)),
        Verdict::Parted => Err(Fault::from(SessionFault::OtherEpoch { epoch })),
    }
}
