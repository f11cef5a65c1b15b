//! The receiving end of a session.
//!
//! It asks (`Resume`), joins the source's history, and then takes frame after frame until one without
//! bytes. Its states are those of the session: joining, following, ended.
//!
//! 1. Bytes up to its position are skipped, and what is past it is fed. So a source may send again what
//!    it does not know to be held, and no byte is fed twice.
//! 2. A position is acknowledged after a force alone: each LSN that is sent back is acknowledged by the
//!    engine that comes back (`vouched`), however the session ends.
//! 3. A history that it has not is adopted before a byte of its last epoch is fed, and synced at once: a
//!    byte is never held under an epoch that a crash forgets.
//! 4. A frame of another epoch, or one that begins past the position, changes nothing and ends the
//!    session. Of a frame with a record that an event refuses, the records before it are held.
//! 5. An upkeep runs after each force: flushes and checkpoints, which the session does not wait for.
ghost use Rattle.std.specs.Prelude.{◌≡◌, ◌≤◌, ◌<◌, ◌+◌, ◌^◌, ◌⊎◌, ℕ, Option, List, length, IfOk};
ghost use Rattle.std.specs.Prelude.{IfErr, OnOk, OnErr};
ghost use Rattle.std.specs.Prelude.{Ok, Err};
ghost use Rattle.std.specs.Io.KnownBytes.{Appends};
ghost use Rattle.als_epochs.specs.Histories.{IsHistory};
ghost use Rattle.als_engine.specs.declared.fault.Fault.{Fault as AnyFault};
ghost use Rattle.als_wire.specs.Frames.{resume_bytes};
ghost use Rattle.als_wire.specs.Sending.{Puts};
ghost use Rattle.als_ship.specs.declared.fault.Fault.TheVariants as fault;
ghost use Rattle.als_ship.specs.declared.fault.Fault.TheVariants.{Refused};
ghost use Rattle.als_ship.specs.Epochs.{AreEpochs};
ghost use Rattle.als_ship.specs.Follows.{HoldsFront, IsTrueFrame, FeedsRest};
ghost use Rattle.als_ship.specs.Follows.{position, SameText, Takes, Handles, WasResynced};
ghost use Rattle.als_ship.specs.Follows.{IsSaidOf, IsSaidOfData};
ghost use Rattle.als_ship.specs.Sessions.{KeepsFront, TakesOne, Follows, Stops, EndsAt};
ghost use Rattle.als_ship.specs.Sessions.{TellsPart, GivesUp, EndsEarly};
ghost use Rattle.als_ship.specs.Vouching.{AnswersOne, AnswersPart, TellsVouched};

use crate::direct::Direct;
use crate::fault::Fault;
use crate::forcing::force_by;
use crate::joining::{join, take_up};
use crate::upkeep::{NoUpkeep, Upkeep};
use crate::voucher::Voucher;
use als_engine::Events;
use als_epochs::History;
use als_record::{LogHeader, Lsn};
use als_wire::{Frame, Tag, is_head, write_acknowledged, write_resume};
use std::alloc::Global;
use std::io::{Read, Write};
use std::marker::Model;

/// The receiving end of a session.
#[derive(Drop)]
pub struct Follower {
    header: LogHeader,
}

impl Model for Follower {
    ghost use Rattle.als_record.specs.declared.header.LogHeader.{LogHeader};

    ghost Value = { LogHeader };

    ghost view = { λ f. f.header };
}

/// How many frames a session has at most.
const FRAME_LIMIT: u32 = 1000000;

impl Follower {
    /// A follower of a log with this header.
    pub fn new(header: LogHeader) -> Follower
        ensures { result ≡ header }
    {
        Follower { header }
    }

    /// Takes one frame, and answers the position after it: of its own epoch's bytes, what is past
    /// the position is fed; another history is adopted, and the control block synced.
    ///
    /// BadFrame: it is none for a follower, or its epoch is above 32, or it has more than 65,536
    /// bytes or ends past the greatest offset; `resync` was called. OtherEpoch: it is of another
    /// epoch. Gap: it begins past the position. After these two nothing has changed. Else the
    /// refusal of an event; what a feed admitted is held.
    ///
    /// Tests alone call it. A session takes a frame in the same way.
    #[tactic(auto, using(crate::proofs::Schedules::handles_front))]
    pub fn frame<E: Events>(&self, events: &mut E, frame: Frame) -> Result<Lsn, Fault>
        ensures handles { E.alone → Handles (E.machine events.old) frame result
            (E.machine events.new) }
        // Over true frames of all epochs the held text stays a front of its epoch's.
        ensures front { E.alone → (texts : ℕ → List ℕ) (seals : List ℕ) → AreEpochs texts seals
            → IsTrueFrame texts seals frame → HoldsFront texts seals (E.machine events.old)
            → HoldsFront texts seals (E.machine events.new) }
    {
        handle(events, frame)
    }

    /// Follows one session: it asks for what is behind the held log, takes up the source's history,
    /// takes each frame, forces the log and acknowledges, up to a frame with no bytes.
    ///
    /// BadFrame: another frame came than the one that may come. Cut: the stream ended. Stream: it
    /// failed, or a session has more than 1,000,000 frames. After these three `resync` was called.
    /// OtherEpoch: a frame is of another epoch. Gap: a frame begins past the position. After these
    /// two the frame has changed nothing. Memory: there was none for a frame's bytes. Else the
    /// refusal of an event: of an adoption OtherEpoch or Diverged, where the source's history does
    /// not go on from the own one, or goes on below the end; what a feed admitted is held.
    ///
    /// Tests and figures call it. A session of the program is one of `follow_keeping`.
    pub fn follow<E: Events, R: Read, W: Write>(
        &self,
        alloc: Global,
        events: &mut E,
        reader: &mut R,
        writer: &mut W,
    ) -> Result<(), Fault>
        ensures done { OnOk result (Follows E.alone self.now (E.machine events.old)
            (E.machine events.new) (R.remaining reader.old)
            (R.remaining reader.new) (W.contents writer.old) (W.contents writer.new)) }
        // Each answer is what a force gave, also in a session that fails.
        ensures fails { IfErr result (λ f. EndsEarly E.alone (λ _ _. ⊥) self.now f
            (E.machine events.old) (E.machine events.new) (R.remaining reader.old)
            (W.contents writer.old) (W.contents writer.new)) }
        // Over true frames of all epochs the held text stays a front of its epoch's.
        ensures front { (behind : Option (List ℕ))
            × KeepsFront E.alone (R.remaining reader.old) behind (E.machine events.old)
            (E.machine events.new) }
    {
        let mut direct = Direct::new();
        self.follow_keeping(alloc, events, &mut direct, &mut NoUpkeep, reader, writer)
    }

    /// The same, acknowledged by a voucher, and after each answer the upkeep is done. It ends with its
    /// first refusal too.
    pub fn follow_keeping<E: Events, V: Voucher<E>, U: Upkeep, R: Read, W: Write>(
        &self,
        alloc: Global,
        events: &mut E,
        voucher: &mut V,
        upkeep: &mut U,
        reader: &mut R,
        writer: &mut W,
    ) -> Result<(), Fault>
        ensures done { OnOk result (Follows E.alone self.now (E.machine events.old)
            (E.machine events.new) (R.remaining reader.old)
            (R.remaining reader.new) (W.contents writer.old) (W.contents writer.new)) }
        // Each answer is what a force gave, also in a session that fails.
        ensures fails { IfErr result (λ f. EndsEarly E.alone U.refuses self.now f
            (E.machine events.old) (E.machine events.new) (R.remaining reader.old)
            (W.contents writer.old) (W.contents writer.new)) }
        // Over true frames of all epochs the held text stays a front of its epoch's.
        ensures front { (behind : Option (List ℕ))
            × KeepsFront E.alone (R.remaining reader.old) behind (E.machine events.old)
            (E.machine events.new) }
        // The voucher stands for each answer, whatever ends the session and whoever else drives the
        // standby.
        ensures vouched { TellsVouched (V.floor voucher.new) (W.contents writer.old)
            (W.contents writer.new) }
        ensures rises { V.floor voucher.old ≤ V.floor voucher.new }
    {
        match session(alloc, self.header, events, voucher, upkeep, reader, writer) {
            Ok(()) => Ok(()),
            Err(fault) => {
                give_up(events, fault);
                Err(fault)
            }
        }
    }
}

/// Calls `resync` after a fault of the stream.
fn give_up<E: Events>(events: &mut E, fault: Fault)
    ensures { E.alone → GivesUp (E.machine events.old) fault (E.machine events.new) }
{
    match fault {
        Fault::BadFrame => resync(events),
        Fault::Cut => resync(events),
        Fault::Stream => resync(events),
        Fault::BadHeader
        | Fault::Memory
        | Fault::Gap
        | Fault::Diverged { seal: _ }
        | Fault::OtherEpoch { epoch: _ }
        | Fault::Refused(_) => {}
    }
}

/// Asks for what is behind the held log, takes up the source's history, and takes frames to the end
/// of the source.
fn session<E: Events, V: Voucher<E>, U: Upkeep, R: Read, W: Write>(
    alloc: Global,
    header: LogHeader,
    events: &mut E,
    voucher: &mut V,
    upkeep: &mut U,
    reader: &mut R,
    writer: &mut W,
) -> Result<(), Fault>
    ensures done { OnOk result (Follows E.alone header (E.machine events.old) (E.machine events.new)
        (R.remaining reader.old)
        (R.remaining reader.new) (W.contents writer.old) (W.contents writer.new)) }
    ensures fails { IfErr result (λ f. EndsAt E.alone U.refuses header f (E.machine events.old)
        (E.machine events.new) (R.remaining reader.old) (W.contents writer.old)
        (W.contents writer.new)) }
    ensures front { (behind : Option (List ℕ))
        × KeepsFront E.alone (R.remaining reader.old) behind (E.machine events.old)
        (E.machine events.new) }
    ensures vouched { TellsVouched (V.floor voucher.new) (W.contents writer.old)
        (W.contents writer.new) }
    ensures rises { V.floor voucher.old ≤ V.floor voucher.new }
{
    let from = events.status().end;
    let own = events.history();
    ask(writer, from, header, &own)?;
    join(events, reader)?;
    for _ in 1..FRAME_LIMIT {
        let last = turn(alloc, events, voucher, upkeep, reader, writer)?;
        if last {
            return Ok(());
        }
    }
    Err(Fault::Stream)
}

/// Asks for what is behind an offset of the log, with the own header and history.
fn ask<W: Write>(writer: &mut W, from: Lsn, header: LogHeader, own: &History) -> Result<(), Fault>
    ensures all { OnOk result (Appends (W.contents writer.old) (W.contents writer.new)
        (resume_bytes from.0 header.pages own.now)) }
    ensures part { Puts (resume_bytes from.0 header.pages own.now) (W.contents writer.old)
        (W.contents writer.new) }
    ensures fails { IfErr result (λ f. f ≡ fault.Stream) }
    // The numbers fit their bytes, and the seals are a history.
    ensures low { from.0 < 2 ^ 64 }
    ensures narrow { header.pages < 2 ^ 32 }
    ensures history { IsHistory own.now }
{
    let _epoch = own.epoch();
    write_resume(writer, from, header, own)?;
    Ok(())
}

/// Takes one frame, forces the log, acknowledges, and then does the upkeep. It answers whether that
/// was the last frame.
fn turn<E: Events, V: Voucher<E>, U: Upkeep, R: Read, W: Write>(
    alloc: Global,
    events: &mut E,
    voucher: &mut V,
    upkeep: &mut U,
    reader: &mut R,
    writer: &mut W,
) -> Result<bool, Fault>
    ensures ok { IfOk result (λ last. TakesOne E.alone last (E.machine events.old)
        (E.machine events.new) (R.remaining reader.old)
        (R.remaining reader.new) (W.contents writer.old) (W.contents writer.new)) }
    ensures fails { IfErr result (λ f. Stops E.alone U.refuses (E.machine events.old) f
        (E.machine events.new) (R.remaining reader.old) (R.remaining reader.new)) }
    ensures part { IfErr result (λ f. TellsPart E.alone (E.machine events.old)
        (E.machine events.new) (R.remaining reader.old) (R.remaining reader.new)
        (W.contents writer.old) (W.contents writer.new)) }
    ensures front { (behind : Option (List ℕ))
        × KeepsFront E.alone (R.remaining reader.old) behind (E.machine events.old)
        (E.machine events.new) }
    ensures answers { OnOk result (AnswersOne (V.floor voucher.new) (W.contents writer.old)
        (W.contents writer.new)) }
    ensures begins { OnErr result (AnswersPart (V.floor voucher.new) (W.contents writer.old)
        (W.contents writer.new)) }
    ensures rises { V.floor voucher.old ≤ V.floor voucher.new }
{
    let frame = Frame::read(alloc, reader, Tag::Data)?;
    let last = frame.is_last();
    handle(events, frame)?;
    let lsn = force_by(events, voucher)?;
    write_acknowledged(writer, lsn)?;
    keep_up(events, upkeep)?;
    Ok(last)
}

/// Does the upkeep, whose refusal ends the session.
fn keep_up<E: Events, U: Upkeep>(events: &mut E, upkeep: &mut U) -> Result<(), Fault>
    ensures same { E.alone → SameText (E.machine events.old) (E.machine events.new) }
    ensures fails { IfErr result (λ f. (cause : AnyFault) × (f ≡ Refused cause)
        × (E.alone → U.refuses cause (E.machine events.new))) }
{
    match upkeep.keep_up(events) {
        Ok(()) => Ok(()),
        Err(fault) => Err(Fault::Refused(fault)),
    }
}

/// Takes one frame, and answers the position after it.
fn handle<E: Events>(events: &mut E, frame: Frame) -> Result<Lsn, Fault>
    ensures handles { E.alone → Handles (E.machine events.old) frame result
        (E.machine events.new) }
    ensures says { IfErr result (λ f. IsSaidOf frame f) }
{
    match frame {
        Frame::Data {
            epoch,
            offset,
            bytes,
        } => take(events, epoch, offset, bytes.as_slice()),
        Frame::Acknowledged(_) => {
            resync(events);
            Err(Fault::BadFrame)
        }
        Frame::Resume {
            from: _,
            header: _,
            history: _,
        } => {
            resync(events);
            Err(Fault::BadFrame)
        }
        Frame::Epochs(history) => take_up(events, history),
    }
}

/// Drops the partial record, if it can be.
fn resync<E: Events>(events: &mut E)
    ensures { E.alone → WasResynced (E.machine events.old) (E.machine events.new) }
{
    let _ = events.resync();
}

/// Takes bytes of an epoch that stand at an offset, and answers the position after them.
fn take<E: Events>(events: &mut E, epoch: u32, offset: u64, bytes: &[u8]) -> Result<Lsn, Fault>
    ensures takes { E.alone → Takes (E.machine events.old) epoch offset bytes.now result
        (E.machine events.new) }
    ensures says { IfErr result (λ f. IsSaidOfData epoch offset (length bytes.now) f) }
{
    if !is_head(epoch, offset, bytes.len()) {
        resync(events);
        return Err(Fault::BadFrame);
    }
    if epoch != events.history().epoch() {
        return Err(Fault::OtherEpoch { epoch });
    }
    let at = position(events);
    if offset > at {
        return Err(Fault::Gap);
    }
    let past = at - offset;
    if past < bytes.len() as u64 {
        feed(events, &bytes[past as usize..])?;
    }
    Ok(Lsn(position(events)))
}

/// The offset of the next byte that is wanted.
pub(crate) fn position<E: Events>(events: &E) -> u64
    ensures { E.alone → result ≡ position (E.machine events.now) }
{
    let status = events.status();
    status.end.0 + status.partial as u64
}

/// Feeds bytes that follow those held.
fn feed<E: Events>(events: &mut E, bytes: &[u8]) -> Result<(), Fault>
    requires { 0 < length bytes.now }
    ensures ok { OnOk result (E.alone → FeedsRest (E.machine events.old) bytes.now (Ok tt)
        (E.machine events.new)) }
    ensures err { IfErr result (λ f. (fault : AnyFault) × (f ≡ Refused fault)
        × (E.alone → FeedsRest (E.machine events.old) bytes.now (Err fault)
        (E.machine events.new))) }
{
    match events.feed(bytes) {
        Ok(_) => Ok(()),
        Err(refusal) => Err(Fault::Refused(refusal.fault)),
    }
}
