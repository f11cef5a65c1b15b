ghost use Rattle.std.specs.Prelude.{◌≡◌, ◌∷◌, [], IfOk, IfErr, OnOk};
ghost use Rattle.std.specs.Io.KnownBytes.{Consumes, Appends};
ghost use Rattle.als_wire.specs.Faults.{IsOfStream};
ghost use Rattle.als_compare.specs.Frames.{question_bytes, rest_bytes, answer_bytes, byte_of};
ghost use Rattle.als_compare.specs.Reading.{FailsToRead, IsOtherTag, IsNoTag, IsNoVerdict, IsNoAnswer};

use crate::numbers::{read_byte, read_digest, read_long, read_word};
use crate::summary::Summary;
use crate::verdict::Verdict;
use als_wire::Fault;
use byteorder::{BigEndian, ByteOrder};
use std::io::{Read, Write};

/// The byte with which a question and an answer begin: the letter V.
pub const TAG: u8 = 86;

/// A question as bytes.
#[tactic(auto, unfolding(crate::specs::Frames::rest_bytes))]
fn spelled(question: &Summary) -> [u8; 45]
    ensures { result ≡ question_bytes question.now }
{
    let mut bytes = [0; 45];
    bytes[0] = TAG;
    BigEndian::write_u32(&mut bytes[1..], question.epoch);
    BigEndian::write_u64(&mut bytes[5..], question.end);
    let (_, digest) = bytes.split_at_mut(13);
    digest.copy_from_slice(&question.digest);
    bytes
}

/// Writes a question, and hands it on. Cut, Stream: the writer failed.
pub fn write_question<W: Write>(writer: &mut W, question: &Summary) -> Result<(), Fault>
    ensures all { OnOk result (Appends (W.contents writer.old) (W.contents writer.new)
        (question_bytes question.now)) }
    ensures fails { IfErr result IsOfStream }
{
    let bytes = spelled(question);
    put(writer, &bytes)
}

/// Writes an answer, and hands it on. Cut, Stream: the writer failed.
pub fn write_answer<W: Write>(writer: &mut W, verdict: Verdict) -> Result<(), Fault>
    ensures all { OnOk result (Appends (W.contents writer.old) (W.contents writer.new)
        (answer_bytes verdict)) }
    ensures fails { IfErr result IsOfStream }
{
    put(writer, &[TAG, verdict.byte()])
}

/// Writes all of the bytes, and hands them on.
pub(crate) fn put<W: Write>(writer: &mut W, bytes: &[u8]) -> Result<(), Fault>
    ensures all { OnOk result (Appends (W.contents writer.old) (W.contents writer.new) bytes.now) }
    ensures fails { IfErr result IsOfStream }
{
    writer.write_all(bytes)?;
    writer.flush()?;
    Ok(())
}

/// Reads the byte with which a frame begins.
pub(crate) fn read_tag<R: Read>(reader: &mut R, tag: u8) -> Result<(), Fault>
    ensures found { OnOk result (Consumes (R.remaining reader.old) (R.remaining reader.new)
        (tag ∷ [])) }
    ensures fails { IfErr result (λ f. FailsToRead (IsOtherTag tag) f (R.remaining reader.old)
        (R.remaining reader.new)) }
{
    let byte = read_byte(reader)?;
    if byte == tag {
        Ok(())
    } else {
        Err(Fault::BadFrame)
    }
}

/// Reads a question.
///
/// BadFrame: another byte stands there than the one with which a question begins. Cut: the stream ended before
/// the question did. Stream: the reader failed.
#[tactic(auto, using(crate::proofs::Parts::question_read, crate::proofs::Parts::of_stream))]
pub fn read_question<R: Read>(reader: &mut R) -> Result<Summary, Fault>
    ensures found { IfOk result (λ question. Consumes (R.remaining reader.old)
        (R.remaining reader.new) (question_bytes question)) }
    ensures fails { IfErr result (λ f. FailsToRead IsNoTag f (R.remaining reader.old)
        (R.remaining reader.new)) }
{
    read_tag(reader, TAG)?;
    let question = read_rest(reader)?;
    Ok(question)
}

/// Reads what stands behind the first byte of a question.
///
/// Cut: the stream ended before the question did. Stream: the reader failed.
#[tactic(auto, using(crate::proofs::Parts::rest_read))]
pub fn read_rest<R: Read>(reader: &mut R) -> Result<Summary, Fault>
    ensures found { IfOk result (λ question. Consumes (R.remaining reader.old)
        (R.remaining reader.new) (rest_bytes question)) }
    ensures fails { IfErr result IsOfStream }
{
    let epoch = read_word(reader)?;
    let end = read_long(reader)?;
    let digest = read_digest(reader)?;
    Ok(Summary { epoch, end, digest })
}

/// Reads the byte of a verdict.
fn read_verdict<R: Read>(reader: &mut R) -> Result<Verdict, Fault>
    ensures found { IfOk result (λ verdict. Consumes (R.remaining reader.old)
        (R.remaining reader.new) (byte_of verdict ∷ [])) }
    ensures fails { IfErr result (λ f. FailsToRead IsNoVerdict f (R.remaining reader.old)
        (R.remaining reader.new)) }
{
    let byte = read_byte(reader)?;
    match Verdict::of_byte(byte) {
        Some(verdict) => Ok(verdict),
        None => Err(Fault::BadFrame),
    }
}

/// Reads an answer.
///
/// BadFrame: another byte stands there than the one with which an answer begins, or none that is a verdict.
/// Cut: the stream ended before the answer did. Stream: the reader failed.
#[tactic(auto, using(crate::proofs::Parts::tag_failed, crate::proofs::Parts::verdict_failed))]
pub fn read_answer<R: Read>(reader: &mut R) -> Result<Verdict, Fault>
    ensures found { IfOk result (λ verdict. Consumes (R.remaining reader.old)
        (R.remaining reader.new) (answer_bytes verdict)) }
    ensures fails { IfErr result (λ f. FailsToRead IsNoAnswer f (R.remaining reader.old)
        (R.remaining reader.new)) }
{
    read_tag(reader, TAG)?;
    let verdict = read_verdict(reader)?;
    Ok(verdict)
}
