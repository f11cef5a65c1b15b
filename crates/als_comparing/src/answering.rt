ghost use Rattle.std.specs.Prelude.{◌≡◌, ◌≤◌, ◌++◌, ℕ, List, IfOk, IfErr, OnOk};
ghost use Rattle.als_sending.specs.Reads.{Read as AnyRead, AreOf};
ghost use Rattle.als_compare.specs.Verdicts.{IsVerdict};
ghost use Rattle.als_comparing.specs.Answers.{IsOfReading, IsOfAnswer, AnswersRest};

use crate::adding::sum;
use als_compare::{Summary, Verdict, judge_history, judge_text, read_rest, write_answer};
use als_sending::Growing;
use als_ship::Fault;
use std::alloc::Global;
use std::io::{Read, Write};

/// The answer to a question, of a log whose end was told. Its text is read only where it decides.
fn judge<G: Growing>(
    alloc: Global,
    log: &mut G,
    end: u64,
    question: &Summary,
) -> Result<Verdict, Fault>
    requires told { end ≡ G.shown log.old }
    ensures verdict { IfOk result (λ v. (text : List ℕ) → AreOf text (G.reads log.new)
        → IsVerdict text (G.shown log.new) (G.seals log.old) question.now v) }
    ensures reads { (more : List AnyRead) × (G.reads log.new ≡ G.reads log.old ++ more) }
    ensures shown { G.shown log.new ≡ G.shown log.old }
    ensures seals { G.seals log.new ≡ G.seals log.old }
    ensures pages { G.pages log.new ≡ G.pages log.old }
    ensures fails { IfErr result IsOfReading }
{
    let own = log.history();
    if let Some(verdict) = judge_history(&own, end, question) {
        return Ok(verdict);
    }
    let summing = sum(alloc, log, question.end)?;
    Ok(judge_text(&own, end, &summing, question))
}

/// Reads what stands behind the first byte of a question, and answers whether the log is the one that the
/// follower holds.
///
/// Cut: the stream ended before the question did. Stream: it failed, or the log did. Memory: there was none
/// for a piece.
pub(crate) fn answer<G: Growing, R: Read, W: Write>(
    alloc: Global,
    log: &mut G,
    reader: &mut R,
    writer: &mut W,
) -> Result<(), Fault>
    ensures answers { OnOk result (AnswersRest (G.reads log.new) (G.shown log.new)
        (G.seals log.old) (R.remaining reader.old) (R.remaining reader.new)
        (W.contents writer.old) (W.contents writer.new)) }
    ensures reads { (more : List AnyRead) × (G.reads log.new ≡ G.reads log.old ++ more) }
    ensures rises { G.shown log.old ≤ G.shown log.new }
    ensures seals { G.seals log.new ≡ G.seals log.old }
    ensures pages { G.pages log.new ≡ G.pages log.old }
    ensures fails { IfErr result IsOfAnswer }
{
    let question = read_rest(reader)?;
    let end = log.end()?;
    let verdict = judge(alloc, log, end, &question)?;
    write_answer(writer, verdict)?;
    Ok(())
}
