ghost use Rattle.std.specs.Prelude.{◌≡◌, ◌≤◌, ◌<◌, ◌^◌, Ok, OnOk, IfOk, IfErr};
ghost use Rattle.std.specs.Io.KnownBytes.{Consumes};
ghost use Rattle.als_epochs.specs.declared.step.Step.{Step as AnyStep};
ghost use Rattle.als_epochs.specs.Histories.{IsHistory};
ghost use Rattle.als_epochs.specs.Judging.{Judges};
ghost use Rattle.als_wire.specs.Frames.{resume_bytes};
ghost use Rattle.als_ship.specs.Wire.{FailsToAsk, IsNotAdmitted};
ghost use Rattle.als_sending.specs.Meeting.{IsAdmitted, IsTurnedAway};

use crate::growing::Growing;
use als_epochs::{History, judge};
use als_record::{LogHeader, Lsn};
use als_ship::Fault;
use als_wire::{read_resume, write_epochs};
use std::io::{Read, Write};

/// Where an admitted follower goes on, and the end that the log told.
#[derive(Clone, Copy, Debug)]
pub(crate) struct Met {
    pub from: u64,
    pub end: u64,
}

/// Reads where the follower goes on, tells it the own history, and judges its own.
pub(crate) fn meet<G: Growing, R: Read, W: Write>(
    log: &mut G,
    reader: &mut R,
    writer: &mut W,
) -> Result<Met, Fault>
    ensures met { IfOk result (λ m. IsAdmitted (G.pages log.old) m.end (G.seals log.old) m.from
        (R.remaining reader.old) (R.remaining reader.new) (W.contents writer.old)
        (W.contents writer.new)) }
    ensures end { IfOk result (λ m. G.shown log.new ≡ m.end) }
    ensures fails { IfErr result (λ f. IsTurnedAway (G.pages log.old) (G.seals log.old)
        (G.shown log.new) f (R.remaining reader.old) (W.contents writer.old)
        (W.contents writer.new)) }
    ensures rises { G.shown log.old ≤ G.shown log.new }
    ensures reads { G.reads log.new ≡ G.reads log.old }
    ensures seals { G.seals log.new ≡ G.seals log.old }
    ensures pages { G.pages log.new ≡ G.pages log.old }
{
    let own = log.history();
    let (from, theirs) = ask(reader, log.header())?;
    write_epochs(writer, &own)?;
    let end = log.end()?;
    admit(&theirs, &own, from, end)?;
    Ok(Met { from, end })
}

/// Reads where the follower goes on, and its history. BadHeader: it has another header.
fn ask<R: Read>(reader: &mut R, header: LogHeader) -> Result<(u64, History), Fault>
    ensures found { IfOk result (λ p. IsHistory p.1
        × Consumes (R.remaining reader.old) (R.remaining reader.new)
        (resume_bytes p.0 header.pages p.1)) }
    ensures fits { IfOk result (λ p. p.0 < 2 ^ 64) }
    ensures fails { IfErr result (λ f. FailsToAsk header f (R.remaining reader.old)
        (R.remaining reader.new)) }
{
    let (from, theirs, history) = read_resume(reader)?;
    if theirs.pages != header.pages {
        return Err(Fault::BadHeader);
    }
    Ok((from.0, history))
}

/// Whether a follower with this history can go on there: it is a front of the own one, whose next
/// seal is not below, and so much there is.
fn admit(theirs: &History, own: &History, from: u64, end: u64) -> Result<(), Fault>
    ensures ok { OnOk result ((step : AnyStep) × Judges theirs.now own.now from (Ok step)
        × (from ≤ end)) }
    ensures fails { IfErr result (λ f. IsNotAdmitted theirs.now own.now from end f) }
{
    judge(theirs, own, Lsn(from))?;
    if from > end {
        return Err(Fault::Gap);
    }
    Ok(())
}
