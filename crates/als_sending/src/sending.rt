ghost use Rattle.std.specs.Prelude.{◌≡◌, ◌≤◌, ◌++◌, List, ℕ, IfOk, IfErr};
ghost use Rattle.als_sending.specs.Reads.{Read as AnyRead, AreOf};
ghost use Rattle.als_sending.specs.Sent.{SendsTrue};
ghost use Rattle.als_sending.specs.Meeting.{FailsToSend};
ghost use Rattle.als_sending.specs.Session.{Hears, KeepsWindow, Begins, Sends};

use crate::growing::Growing;
use crate::marks::Marks;
use crate::meeting::meet;
use crate::pouring::pour;
use crate::way::Way;
use als_record::Lsn;
use als_ship::{Fault, PIECE_LIMIT};
use std::alloc::Global;
use std::io::{Read, Write};
use std::vec::Vec;

/// How many frames may be without an answer at most.
pub const WINDOW_LIMIT: u32 = 64;

/// Serves one follower: tells it the own history, and sends the log from where it goes on, as it
/// grows, in pieces of at most 65,536 bytes, until it ends. At most `window` frames are without an
/// answer. It answers how many log bytes were new to the follower.
///
/// BadHeader: the follower's log has another header, or a damaged one; nothing was sent.
/// OtherEpoch: the follower's history is no front of the own one. Diverged: it goes on past the seal
/// with which the own one goes on. Gap: it holds more than there is. These three come in this order,
/// once the history was told. BadFrame: another frame came than the one that may come. Cut: the
/// stream ended. Stream: it failed, or the log did, or the session has too many frames. Memory: there
/// was none for a piece.
pub fn send_log<G: Growing, M: Marks, R: Read, W: Write>(
    alloc: Global,
    log: &mut G,
    marks: &mut M,
    window: u32,
    reader: &mut R,
    writer: &mut W,
) -> Result<u64, Fault>
    requires some { 1 ≤ window }
    requires few { window ≤ 64 }
    // Whatever ends it, what was sent are true frames of each text of which all reads are.
    ensures true_frames { (text : List ℕ) → AreOf text (G.reads log.new)
        → SendsTrue text (G.seals log.old) (W.contents writer.old) (W.contents writer.new) }
    // Whatever ends it, what was acknowledged are the answers that were read, and nothing else.
    ensures heard { Hears (G.pages log.old) (G.shown log.new) (G.seals log.old) (M.heard marks.old)
        (M.heard marks.new) (R.remaining reader.old) (W.contents writer.old) }
    // Whatever ends it, at most `window` frames are without an answer.
    ensures window { KeepsWindow window (G.seals log.old) (M.heard marks.old) (M.heard marks.new)
        (W.contents writer.old) (W.contents writer.new) }
    // Where it did not begin, nothing was sent but the own history.
    ensures begun { Begins (G.pages log.old) (G.shown log.new) (G.seals log.old)
        (M.begun marks.old) (M.begun marks.new) (M.heard marks.old) (M.heard marks.new)
        (R.remaining reader.old) (W.contents writer.old) (W.contents writer.new) }
    // All up to the end that the log told last was sent, and each frame of it answered.
    ensures sent { IfOk result (λ n. Sends (G.pages log.old) (G.shown log.new) (G.seals log.old)
        (G.reads log.old) (G.reads log.new) (M.heard marks.old) (M.heard marks.new)
        (R.remaining reader.old) (R.remaining reader.new) (W.contents writer.old)
        (W.contents writer.new) n) }
    // What was read before stays.
    ensures reads { (more : List AnyRead) × (G.reads log.new ≡ G.reads log.old ++ more) }
    ensures rises { G.shown log.old ≤ G.shown log.new }
    ensures seals { G.seals log.new ≡ G.seals log.old }
    ensures pages { G.pages log.new ≡ G.pages log.old }
    ensures fails { IfErr result (λ f. FailsToSend (G.pages log.old) (G.seals log.old)
        (G.shown log.new) f (R.remaining reader.old)) }
{
    let met = meet(log, reader, writer)?;
    let from = met.from;
    marks.begin(Lsn(from));
    let mut buf = Vec::new(alloc);
    buf.resize(PIECE_LIMIT, 0)?;
    let mut way = Way {
        epoch: log.history().epoch(),
        window,
        at: from,
        end: met.end,
        ahead: 0,
    };
    pour(log, marks, &mut way, buf.as_mut_slice(), reader, writer)?;
    Ok(way.at - from)
}
