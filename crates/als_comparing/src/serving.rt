ghost use Rattle.std.specs.Prelude.{◌≡◌, ◌≤◌, ◌++◌, ◌∷◌, ◌⊎◌, ℕ, List, [], Option, Some};
ghost use Rattle.std.specs.Prelude.{OnOk, IfOk, IfErr};
ghost use Rattle.std.specs.Io.KnownBytes.{Consumes};
ghost use Rattle.std.specs.Fmt.{option_append};
ghost use Rattle.als_ship.specs.declared.fault.Fault.TheVariants.{Cut, Stream};
ghost use Rattle.als_sending.specs.Reads.{Read as AnyRead, AreOf};
ghost use Rattle.als_sending.specs.Sent.{SendsTrue};
ghost use Rattle.als_sending.specs.Meeting.{FailsToSend};
ghost use Rattle.als_sending.specs.Session.{Hears, KeepsWindow, Begins, Sends};
ghost use Rattle.als_comparing.specs.Answers.{AnswersOne};
ghost use Rattle.als_comparing.specs.Serving.{IsAsked, IsServed, EndsWell, FailsToServe};

use crate::answering::answer;
use crate::ranking::tell_rank;
use als_compare::{RANK_TAG, TAG, read_byte};
use als_sending::{Growing, Marks, send_log};
use als_ship::Fault;
use std::alloc::Global;
use std::io::{Read, Write};

/// Serves one who came: answers whether the log is the one that a follower holds, or what the node's rank is,
/// where that is asked, or sends the log, as `als_sending::send_log` does. It answers how many log bytes were
/// new to the follower: 0 after a question, of which `marks` hears nothing.
///
/// As `send_log` says; of a question Cut: the stream ended before it did. Stream: it failed, or the log did.
/// Memory: there was none for a piece.
#[tactic(auto, using(crate::proofs::Behind::known_again, crate::proofs::Behind::begins_question))]
pub fn serve_log<G: Growing, M: Marks, R: Read, W: Write>(
    alloc: Global,
    log: &mut G,
    marks: &mut M,
    window: u32,
    reader: &mut R,
    writer: &mut W,
) -> Result<u64, Fault>
    requires some { 1 ≤ window }
    requires few { window ≤ 64 }
    // A question was answered, by what each text says of which all reads are, or by the rank of the log's own
    // history and its acknowledged end; or true frames of each such text were sent.
    ensures serves { OnOk result (AnswersOne (G.reads log.new) (G.shown log.new) (G.seals log.old)
        (R.remaining reader.old) (R.remaining reader.new) (W.contents writer.old)
        (W.contents writer.new)
        ⊎ ((text : List ℕ) → AreOf text (G.reads log.new) → SendsTrue text (G.seals log.old)
        (W.contents writer.old) (W.contents writer.new))) }
    // Whatever ends it: nothing was acknowledged, as a question began; or what was acknowledged are the
    // answers that were read, at most `window` frames are without one, and what was sent are true frames.
    ensures served { IsAsked (R.remaining reader.old) (M.heard marks.old) (M.heard marks.new)
        (M.begun marks.old) (M.begun marks.new)
        ⊎ IsServed window (G.pages log.old) (G.shown log.new) (G.seals log.old) (G.reads log.new)
        (R.remaining reader.old) (M.heard marks.old) (M.heard marks.new) (M.begun marks.old)
        (M.begun marks.new) (W.contents writer.old) (W.contents writer.new) }
    // Where it ends well, a question was asked and answered; or all up to the end that the log told last was
    // sent and answered, and so many log bytes were new.
    ensures sent { IfOk result (λ n. EndsWell (G.pages log.old) (G.shown log.new) (G.seals log.old)
        (G.reads log.old) (G.reads log.new) (R.remaining reader.old) (R.remaining reader.new)
        (M.heard marks.old) (M.heard marks.new) (M.begun marks.old) (M.begun marks.new)
        (W.contents writer.old) (W.contents writer.new) n) }
    // What was read before stays.
    ensures reads { (more : List AnyRead) × (G.reads log.new ≡ G.reads log.old ++ more) }
    ensures rises { G.shown log.old ≤ G.shown log.new }
    ensures seals { G.seals log.new ≡ G.seals log.old }
    ensures pages { G.pages log.new ≡ G.pages log.old }
    ensures fails { IfErr result (λ f. FailsToServe (G.pages log.old) (G.seals log.old)
        (G.shown log.new) f (R.remaining reader.old)) }
{
    let first = first_byte(reader)?;
    if first == TAG {
        answer(alloc, log, reader, writer)?;
        return Ok(0);
    }
    if first == RANK_TAG {
        tell_rank(log, writer)?;
        return Ok(0);
    }
    serve_behind(alloc, log, marks, window, first, reader, writer)
}

/// The first byte that comes. Cut: none did. Stream: the stream failed.
pub(crate) fn first_byte<R: Read>(reader: &mut R) -> Result<u8, Fault>
    ensures found { IfOk result (λ byte. Consumes (R.remaining reader.old) (R.remaining reader.new)
        (byte ∷ [])) }
    ensures fails { IfErr result (λ f. (f ≡ Cut) ⊎ (f ≡ Stream)) }
{
    Ok(read_byte(reader)?)
}

/// The same of a session, of whose question the first byte was read.
fn serve_behind<G: Growing, M: Marks, R: Read, W: Write>(
    alloc: Global,
    log: &mut G,
    marks: &mut M,
    window: u32,
    first: u8,
    reader: &mut R,
    writer: &mut W,
) -> Result<u64, Fault>
    requires some { 1 ≤ window }
    requires few { window ≤ 64 }
    ensures true_frames { (text : List ℕ) → AreOf text (G.reads log.new)
        → SendsTrue text (G.seals log.old) (W.contents writer.old) (W.contents writer.new) }
    ensures hears { Hears (G.pages log.old) (G.shown log.new) (G.seals log.old) (M.heard marks.old)
        (M.heard marks.new) (option_append (Some (first ∷ [])) (R.remaining reader.old))
        (W.contents writer.old) }
    ensures keeps { KeepsWindow window (G.seals log.old) (M.heard marks.old) (M.heard marks.new)
        (W.contents writer.old) (W.contents writer.new) }
    ensures begins { Begins (G.pages log.old) (G.shown log.new) (G.seals log.old)
        (M.begun marks.old) (M.begun marks.new) (M.heard marks.old) (M.heard marks.new)
        (option_append (Some (first ∷ [])) (R.remaining reader.old)) (W.contents writer.old)
        (W.contents writer.new) }
    ensures sent { IfOk result (λ n. (left : Option (List ℕ)) × Sends (G.pages log.old)
        (G.shown log.new) (G.seals log.old) (G.reads log.old) (G.reads log.new)
        (M.heard marks.old) (M.heard marks.new)
        (option_append (Some (first ∷ [])) (R.remaining reader.old)) left
        (W.contents writer.old) (W.contents writer.new) n) }
    ensures reads { (more : List AnyRead) × (G.reads log.new ≡ G.reads log.old ++ more) }
    ensures rises { G.shown log.old ≤ G.shown log.new }
    ensures seals { G.seals log.new ≡ G.seals log.old }
    ensures pages { G.pages log.new ≡ G.pages log.old }
    ensures fails { IfErr result (λ f. FailsToSend (G.pages log.old) (G.seals log.old)
        (G.shown log.new) f (option_append (Some (first ∷ [])) (R.remaining reader.old))) }
{
    let front = [first];
    let mut reader = front.as_slice().chain(reader);
    send_log(alloc, log, marks, window, &mut reader, writer)
}
