ghost use Rattle.std.specs.Prelude.{◌≡◌, ◌≤◌, ◌<◌, ◌+◌, ◌^◌, false, true, None, Some, Ok, [], length};
ghost use Rattle.std.specs.Prelude.{take};
ghost use Rattle.std.specs.Prelude.{IfOk, IfErr, OnOk, OnErr};
ghost use Rattle.std.specs.Io.KnownBytes.{Appends, Consumes};
ghost use Rattle.als_record.specs.LogText.{header_bytes};
ghost use Rattle.als_epochs.specs.declared.step.Step.{Step as AnyStep};
ghost use Rattle.als_epochs.specs.Histories.{IsHistory};
ghost use Rattle.als_epochs.specs.Judging.{Judges};
ghost use Rattle.als_wire.specs.declared.tag.Tag.TheVariants as tag;
ghost use Rattle.als_wire.specs.Frames.{data_bytes, epochs_bytes, resume_bytes};
ghost use Rattle.als_wire.specs.Frames.{acknowledged_bytes};
ghost use Rattle.als_wire.specs.Reading.{FailsToRead};
ghost use Rattle.als_wire.specs.Sending.{Puts};
ghost use Rattle.als_ship.specs.declared.fault.Fault.TheVariants as fault;
ghost use Rattle.als_ship.specs.Wire.{bytes_at, Pours, PoursPart, Ships, SendsTrue, EndsServing};
ghost use Rattle.als_ship.specs.Wire.{FailsToAsk, IsNotAdmitted, FailsToPour, FailsToServe};
ghost use Rattle.als_ship.specs.Meeting.{MeetsOne, MeetsInVain};

use crate::fault::Fault;
use crate::source::Source;
use als_epochs::{History, judge};
use als_record::{LogHeader, Lsn};
use als_wire::{
    Fault as WireFault, PIECE_LIMIT, read_acknowledged, read_resume, write_data, write_epochs,
};
use std::alloc::Global;
use std::io::{Read, Write};

/// The sending end of a session.
#[derive(Clone, Copy, Debug)]
pub struct Shipper {
    begun: bool,
    acknowledged: Option<Lsn>,
}

impl Shipper {
    /// A shipper that has served nobody.
    pub fn new() -> Shipper
        ensures begun { result.begun ≡ false }
        ensures none { result.acknowledged ≡ None }
    {
        Shipper {
            begun: false,
            acknowledged: None,
        }
    }

    /// Did the last one that came ask, with the header of the source?
    pub fn has_begun(&self) -> bool
        ensures { result ≡ self.now.begun }
    {
        self.begun
    }

    /// The LSN that the follower acknowledged last in the last session, if it acknowledged one: it
    /// holds every log byte below it on its devices.
    pub fn acknowledged(&self) -> Option<Lsn>
        ensures { result ≡ self.now.acknowledged }
    {
        self.acknowledged
    }

    /// Serves one follower: tells it the source's history, and sends the text from where it goes on
    /// to the end, in pieces of at most 65,536 bytes, each of which it answers. It answers how many
    /// log bytes it sent.
    ///
    /// BadHeader: the follower's log has another header, or a damaged one; nothing was sent.
    /// OtherEpoch: the follower's history is no front of the source's. Diverged: it goes on past
    /// the seal with which the source's goes on. Gap: it holds more than there is. These three come
    /// in this order, once the history was told. BadFrame: another frame came than the one that may
    /// come. Cut: the stream ended. Stream: it failed, or the source did. Memory: there was none for
    /// a piece.
    pub fn serve<S: Source, R: Read, W: Write>(
        &mut self,
        alloc: Global,
        source: &mut S,
        reader: &mut R,
        writer: &mut W,
    ) -> Result<u64, Fault>
        // All of the source from there on was sent, and each frame of it answered.
        ensures sent { (header : LogHeader)
            → take 16 (S.text source.old) ≡ header_bytes header.pages → header.pages ≤ 4096
            → IfOk result (λ n. Ships (S.text source.old) (S.seals source.old) header
            (R.remaining reader.old) (R.remaining reader.new) (W.contents writer.old)
            (W.contents writer.new) n self.new.acknowledged) }
        // Whatever ends it, what was sent are true frames of the source.
        ensures true_frames { SendsTrue (S.text source.old) (S.seals source.old)
            (W.contents writer.old) (W.contents writer.new) }
        // No frame is sent before the one in front of it was answered; the last answer is kept.
        ensures answered { IfErr result (λ _. EndsServing (S.text source.old) (S.seals source.old)
            (R.remaining reader.old) (W.contents writer.old) (W.contents writer.new)
            self.new.acknowledged) }
        // A session that has not begun has sent nothing; one that is done had begun.
        ensures begun { self.new.begun ≡ false → Appends (W.contents writer.old)
            (W.contents writer.new) [] }
        ensures done { OnOk result (self.new.begun ≡ true) }
        ensures same { S.text source.new ≡ S.text source.old }
        ensures kept { S.seals source.new ≡ S.seals source.old }
        ensures fails { (header : LogHeader)
            → take 16 (S.text source.old) ≡ header_bytes header.pages → header.pages ≤ 4096
            → IfErr result (λ f. FailsToServe header (S.seals source.old)
            (length (S.text source.old)) f (R.remaining reader.old)) }
    {
        self.begun = false;
        self.acknowledged = None;
        let from = self.meet(source, reader, writer)?;
        self.pour(alloc, source, from, reader, writer)?;
        Ok(source.end() - from)
    }

    /// Reads where the follower goes on, tells it the source's history, and judges its own.
    fn meet<S: Source, R: Read, W: Write>(
        &mut self,
        source: &S,
        reader: &mut R,
        writer: &mut W,
    ) -> Result<u64, Fault>
        requires { self.old.begun ≡ false }
        ensures met { IfOk result (λ from. MeetsOne (S.text source.now) (S.seals source.now) from
            (R.remaining reader.old) (R.remaining reader.new) (W.contents writer.old)
            (W.contents writer.new)) }
        ensures fails { IfErr result (λ f. MeetsInVain (S.text source.now) (S.seals source.now) f
            (R.remaining reader.old) (W.contents writer.old) (W.contents writer.new)) }
        ensures begun { self.new.begun ≡ false → Appends (W.contents writer.old)
            (W.contents writer.new) [] }
        ensures done { OnOk result (self.new.begun ≡ true) }
        ensures kept { self.new.acknowledged ≡ self.old.acknowledged }
    {
        let own = source.history();
        let (from, theirs) = ask(reader, source.header())?;
        self.begun = true;
        write_epochs(writer, &own)?;
        admit(&theirs, &own, from, source.end())?;
        Ok(from)
    }

    /// Sends the text from an offset to its end, and reads the answers.
    fn pour<S: Source, R: Read, W: Write>(
        &mut self,
        alloc: Global,
        source: &mut S,
        from: u64,
        reader: &mut R,
        writer: &mut W,
    ) -> Result<(), Fault>
        requires within { from ≤ length (S.text source.old) }
        requires none { self.old.acknowledged ≡ None }
        ensures all { OnOk result (Pours (S.text source.old) (length (S.seals source.old)) from
            (R.remaining reader.old) (R.remaining reader.new) (W.contents writer.old)
            (W.contents writer.new) self.new.acknowledged) }
        ensures part { IfErr result (λ _. PoursPart (S.text source.old)
            (length (S.seals source.old)) from (R.remaining reader.old) (W.contents writer.old)
            (W.contents writer.new) self.new.acknowledged) }
        ensures begun { self.new.begun ≡ self.old.begun }
        ensures same { S.text source.new ≡ S.text source.old }
        ensures kept { S.seals source.new ≡ S.seals source.old }
        ensures fails { IfErr result (λ f. FailsToPour f (R.remaining reader.old)) }
    {
        let end = source.end();
        let epoch = source.history().epoch();
        let mut at = from;
        let mut buf = Vec::new(alloc);
        buf.resize(PIECE_LIMIT, 0)?;
        let room = buf.as_mut_slice();
        while at < end {
            let len = (end - at).min(PIECE_LIMIT as u64);
            send(source, writer, epoch, at, &mut room[..len as usize])?;
            let lsn = hear(reader)?;
            self.acknowledged = Some(lsn);
            at += len;
        }
        write_data(writer, epoch, end, &[])?;
        let last = hear(reader)?;
        self.acknowledged = Some(last);
        Ok(())
    }
}

/// Reads the answer to a frame.
fn hear<R: Read>(reader: &mut R) -> Result<Lsn, WireFault>
    ensures found { IfOk result (λ lsn. Consumes (R.remaining reader.old) (R.remaining reader.new)
        (acknowledged_bytes lsn.0)) }
    ensures fits { IfOk result (λ lsn. lsn.0 < 2 ^ 64) }
    ensures fails { IfErr result (λ f. FailsToRead tag.Acknowledged f (R.remaining reader.old)
        (R.remaining reader.new)) }
{
    match read_acknowledged(reader) {
        Ok(lsn) => Ok(lsn),
        Err(fault) => Err(fault),
    }
}

/// Sends the bytes from an offset on, as many as there is room for.
fn send<S: Source, W: Write>(
    source: &mut S,
    writer: &mut W,
    epoch: u32,
    at: u64,
    room: &mut [u8],
) -> Result<(), Fault>
    requires inside { at + length room.old ≤ length (S.text source.old) }
    requires few { length room.old ≤ 65536 }
    ensures sent { OnOk result (Appends (W.contents writer.old) (W.contents writer.new)
        (data_bytes epoch at (bytes_at (S.text source.old) at (length room.old)))) }
    ensures part { Puts (data_bytes epoch at (bytes_at (S.text source.old) at (length room.old)))
        (W.contents writer.old) (W.contents writer.new) }
    ensures same { S.text source.new ≡ S.text source.old }
    ensures kept { S.seals source.new ≡ S.seals source.old }
    ensures fails { IfErr result (λ f. f ≡ fault.Stream) }
{
    source.read_at(at, room)?;
    write_data(writer, epoch, at, room)?;
    Ok(())
}

/// Reads where the follower goes on, and its history. BadHeader: it has another header.
fn ask<R: Read>(reader: &mut R, header: LogHeader) -> Result<(u64, History), Fault>
    ensures found { IfOk result (λ p. IsHistory p.1
        × Consumes (R.remaining reader.old) (R.remaining reader.new)
        (resume_bytes p.0 header.pages p.1)) }
    ensures fits { IfOk result (λ p. p.0 < 2 ^ 64) }
    ensures fails { IfErr result (λ f. FailsToAsk header f (R.remaining reader.old)
        (R.remaining reader.new)) }
{
    let (from, theirs, history) = read_resume(reader)?;
    if theirs.pages != header.pages {
        return Err(Fault::BadHeader);
    }
    Ok((from.0, history))
}

/// Whether a follower with this history can go on there: it is a front of the source's, whose next
/// seal is not below, and so much there is.
fn admit(theirs: &History, own: &History, from: u64, end: u64) -> Result<(), Fault>
    ensures ok { OnOk result ((step : AnyStep) × Judges theirs.now own.now from (Ok step)
        × (from ≤ end)) }
    ensures fails { IfErr result (λ f. IsNotAdmitted theirs.now own.now from end f) }
{
    judge(theirs, own, Lsn(from))?;
    if from > end {
        return Err(Fault::Gap);
    }
    Ok(())
}
