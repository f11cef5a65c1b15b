ghost use Rattle.std.specs.Prelude.{◌≡◌, ◌≤◌, ◌++◌, List, OnOk, IfErr};
ghost use Rattle.als_sending.specs.Reads.{Read as AnyRead};
ghost use Rattle.als_comparing.specs.Answers.{IsOfAnswer, AnswersOne};

use crate::answering::answer;
use crate::ranking::tell_rank;
use crate::serving::first_byte;
use als_compare::{RANK_TAG, TAG};
use als_sending::Growing;
use als_ship::Fault;
use std::alloc::Global;
use std::io::{Read, Write};

/// Reads a question and answers it, where no session is asked for: whether the log is the one that a follower
/// holds, or what the node's rank is.
///
/// BadFrame: what came is no question. Cut: the stream ended before the question did. Stream: it failed, or the
/// log did. Memory: there was none for a piece.
#[tactic(auto, using(crate::proofs::Behind::one_answered, crate::proofs::Behind::one_told))]
pub fn answer_question<G: Growing, R: Read, W: Write>(
    alloc: Global,
    log: &mut G,
    reader: &mut R,
    writer: &mut W,
) -> Result<(), Fault>
    ensures answers { OnOk result (AnswersOne (G.reads log.new) (G.shown log.new) (G.seals log.old)
        (R.remaining reader.old) (R.remaining reader.new) (W.contents writer.old)
        (W.contents writer.new)) }
    ensures reads { (more : List AnyRead) × (G.reads log.new ≡ G.reads log.old ++ more) }
    ensures rises { G.shown log.old ≤ G.shown log.new }
    ensures seals { G.seals log.new ≡ G.seals log.old }
    ensures pages { G.pages log.new ≡ G.pages log.old }
    ensures fails { IfErr result IsOfAnswer }
{
    let first = first_byte(reader)?;
    if first == TAG {
        answer(alloc, log, reader, writer)?;
        return Ok(());
    }
    if first == RANK_TAG {
        tell_rank(log, writer)?;
        return Ok(());
    }
    Err(Fault::BadFrame)
}
