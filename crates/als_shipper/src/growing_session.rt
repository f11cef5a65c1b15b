ghost use Rattle.std.specs.Prelude.{◌≡◌, ◌≤◌, ◌++◌, ℕ, List, IfOk, IfErr, true, false};
ghost use Rattle.std.specs.Io.KnownBytes.{Appends};
ghost use Rattle.als_sending.specs.Reads.{Read as AnyRead, AreOf};
ghost use Rattle.als_shipper.specs.Faults.{IsOfShipping};
ghost use Rattle.als_shipper.specs.Growing.{GetsTrue, GetsWithin, GetsNothing, GetsSome, GetsAll};
ghost use Rattle.als_shipper.specs.Lines.{sent_line};

use crate::meeting::Meetings;
use crate::sent::Sent;
use crate::shipping::{asks_nothing, tell_sent};
use crate::visitors::Visitors;
use als_operate::Fault;
use als_sending::{Growing, send_log};
use als_ship::Fault as SessionFault;
use std::alloc::Global;
use std::io;
use std::io::{Read, Write};

/// Serves the next who comes a log that may grow, with up to `window` frames without an answer. It answers
/// whether that one asked for the log: where all was sent to it, and then `sent=N` was printed, the log bytes
/// that were new to it. Who asks for nothing, or goes away before it was admitted, is passed over.
///
/// Session: as `als_sending::send_log` says. Stream, Memory: nobody could be waited for, or the output
/// failed.
pub fn serve_growing<G: Growing, T: Read + Write + Drop, V: Visitors<T>, M: Meetings, O: Write>(
    alloc: Global,
    log: &mut G,
    window: u32,
    visitors: &mut V,
    meetings: &mut M,
    output: &mut O,
) -> Result<bool, Fault>
    requires some { 1 ≤ window }
    requires few { window ≤ 64 }
    // Whatever ends it, what was sent are true frames of each text of which all reads are.
    ensures true_frames { (text : List ℕ) → AreOf text (G.reads log.new)
        → GetsTrue text (G.seals log.old) (V.met visitors.old) (V.met visitors.new) }
    // Whatever ends it, at most `window` frames are without an answer that was read.
    ensures window { GetsWithin window (G.pages log.old) (G.shown log.new) (G.seals log.old)
        (V.met visitors.old) (V.met visitors.new) }
    // All up to the end that the log told last was sent to who asked, each frame of it was answered, and
    // the line tells how many log bytes that were.
    ensures sent { IfOk result (λ asked. asked ≡ true → GetsAll (G.pages log.old) (G.shown log.new)
        (G.seals log.old) (G.reads log.old) (G.reads log.new) (V.met visitors.old)
        (V.met visitors.new) (O.contents output.old) (O.contents output.new)) }
    // A line is all that is printed.
    ensures told { IfOk result (λ asked. asked ≡ true → (n : ℕ)
        × Appends (O.contents output.old) (O.contents output.new) (sent_line n)) }
    // Who is passed over was sent nothing but the own history or a front of it.
    ensures passed { IfOk result (λ asked. asked ≡ false
        → GetsNothing (G.seals log.old) (V.met visitors.old) (V.met visitors.new)
        × (O.contents output.new ≡ O.contents output.old)) }
    // What was read before stays.
    ensures reads { (more : List AnyRead) × (G.reads log.new ≡ G.reads log.old ++ more) }
    ensures seals { G.seals log.new ≡ G.seals log.old }
    ensures pages { G.pages log.new ≡ G.pages log.old }
    ensures fails { IfErr result IsOfShipping }
{
    let (sent, served) = send_next(alloc, log, window, visitors)?;
    match served {
        Ok(bytes) => {
            meetings.acknowledged(sent.acknowledged);
            tell_sent(bytes, output)?;
            Ok(true)
        }
        Err(fault) if !sent.begun && asks_nothing(fault) => {
            meetings.passed_over(fault);
            Ok(false)
        }
        Err(fault) => {
            meetings.acknowledged(sent.acknowledged);
            Err(Fault::Session(fault))
        }
    }
}

/// Sends the log to the next who comes, and returns what that one acknowledged and how its session ended.
fn send_next<G: Growing, T: Read + Write + Drop, V: Visitors<T>>(
    alloc: Global,
    log: &mut G,
    window: u32,
    visitors: &mut V,
) -> io::Result<(Sent, Result<u64, SessionFault>)>
    requires some { 1 ≤ window }
    requires few { window ≤ 64 }
    ensures true_frames { (text : List ℕ) → AreOf text (G.reads log.new)
        → GetsTrue text (G.seals log.old) (V.met visitors.old) (V.met visitors.new) }
    ensures window { GetsWithin window (G.pages log.old) (G.shown log.new) (G.seals log.old)
        (V.met visitors.old) (V.met visitors.new) }
    ensures sent { IfOk result (λ p. IfOk p.1 (λ n. GetsSome (G.pages log.old) (G.shown log.new)
        (G.seals log.old) (G.reads log.old) (G.reads log.new) (V.met visitors.old)
        (V.met visitors.new) n)) }
    ensures nothing { IfOk result (λ p. p.0.begun ≡ false → GetsNothing (G.seals log.old)
        (V.met visitors.old) (V.met visitors.new)) }
    ensures reads { (more : List AnyRead) × (G.reads log.new ≡ G.reads log.old ++ more) }
    ensures seals { G.seals log.new ≡ G.seals log.old }
    ensures pages { G.pages log.new ≡ G.pages log.old }
{
    let (mut reader, mut writer) = visitors.next()?;
    let mut sent = Sent::new();
    let served = send_log(alloc, log, &mut sent, window, &mut reader, &mut writer);
    visitors.part(reader, writer);
    Ok((sent, served))
}
