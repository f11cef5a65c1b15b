ghost use Rattle.std.specs.Prelude.{IfOk, IfErr, ◌⊎◌, ◌≡◌};
ghost use Rattle.std.specs.Io.KnownBytes.{Consumes, Appends};
ghost use Rattle.als_wire.specs.declared.fault.Fault.TheVariants as fault;
ghost use Rattle.als_wire.specs.Faults.{IsOfStream};
ghost use Rattle.als_compare.specs.Frames.{question_bytes, answer_bytes};

use crate::frames::{read_answer, write_question};
use crate::summary::Summary;
use crate::verdict::Verdict;
use als_wire::Fault;
use std::io::{Read, Write};

/// Asks a source over two streams whether its log is the held one. It answers what the source did.
///
/// BadFrame: what came is no answer, as from a source that does not compare logs. Cut: the stream ended before
/// an answer came, as such a source does too. Stream: it failed.
pub fn ask<R: Read, W: Write>(
    question: &Summary,
    reader: &mut R,
    writer: &mut W,
) -> Result<Verdict, Fault>
    ensures asked { IfOk result (λ _. Appends (W.contents writer.old) (W.contents writer.new)
        (question_bytes question.now)) }
    ensures answered { IfOk result (λ verdict. Consumes (R.remaining reader.old)
        (R.remaining reader.new) (answer_bytes verdict)) }
    ensures fails { IfErr result (λ f. IsOfStream f ⊎ (f ≡ fault.BadFrame)) }
{
    write_question(writer, question)?;
    let verdict = read_answer(reader)?;
    Ok(verdict)
}
