ghost use Rattle.std.specs.Prelude.{◌≡◌, ◌≤◌, ◌⊎◌, ℕ, [], take, Option, IfOk, OnOk, IfErr, true, false};
ghost use Rattle.std.specs.Io.KnownBytes.{Appends};
ghost use Rattle.als_record.specs.declared.header.LogHeader.{LogHeader};
ghost use Rattle.als_record.specs.declared.lsn.Lsn.{Lsn};
ghost use Rattle.als_record.specs.LogText.{header_bytes};
ghost use Rattle.als_ship.specs.declared.fault.Fault.{Fault as AnyFault};
ghost use Rattle.als_ship.specs.Wire.{SendsTrue, EndsServing};
ghost use Rattle.als_operate.specs.declared.fault.Fault.TheVariants.{Session};
ghost use Rattle.als_operate.specs.FaultNames.{IsOfReader};
ghost use Rattle.als_shipper.specs.Faults.{asks_for_nothing};
ghost use Rattle.als_shipper.specs.Lines.{sent_line, Tells, TellsTo, TellsLast};
ghost use Rattle.als_shipper.specs.Visits.{SendsTrueTo, EndsServingTo};
ghost use Rattle.als_shipper.specs.Visits.{PassesLast, SendsLast, EndsLast};

use crate::callers::Callers;
use crate::file_text::FileText;
use crate::log_questions::LogQuestions;
use crate::meeting::Meetings;
use crate::visitors::Visitors;
use crate::whole::read_whole;
use als_folder::LOG_LIMIT;
use als_operate::{Fault, silence};
use als_ship::{Fault as SessionFault, LogBytes, Shipper, Source};
use std::alloc::Global;
use std::fs::{File, OpenFile};
use std::io::{Read, Write};
use std::net::{Net, TcpListener};
use std::rt::Files;
use std::time::Clock;

/// What is shipped, and where.
#[derive(Clone, Copy, Debug)]
pub struct Shipping<'a> {
    /// The file of the log text.
    pub log: &'a str,
    /// Where a follower comes to.
    pub listen: &'a str,
    /// So many seconds a follower may be silent; 0: as long as it likes.
    pub timeout: u64,
}

/// Serves the log text of a file to the first follower that comes to the address and asks for it,
/// and then prints `sent=N`, the log bytes that it sent. Nothing of the text is checked but its
/// header. Who asks what log it is, or for a rank, is answered; who asks for nothing is passed over.
///
/// Session BadHeader: the file begins with no header, or the follower has another one. Session
/// OtherEpoch: a takeover was before the follower. Session Gap: it holds more than there is. Session
/// BadFrame, Cut, Stream: what came was no frame,
/// the follower went away, the network failed or was silent too long. Stream: the file, the address
/// or the output failed, or the file has more than `LOG_LIMIT` bytes. Memory: there was none for
/// the file.
pub fn ship<R: AllocGlobal + Files<File = File> + Net + Clock, M: Meetings, O: Write>(
    rt: &R,
    shipping: Shipping<'_>,
    meetings: &mut M,
    output: &mut O,
) -> Result<(), Fault>
    ensures told { OnOk result ((n : ℕ) × Appends (O.contents output.old) (O.contents output.new)
        (sent_line n)) }
{
    let file = File::open(rt, shipping.log)?;
    let beside = file.try_clone()?;
    let bytes = read_whole(rt.alloc(), file, LOG_LIMIT)?;
    let mut source = LogBytes::new(bytes)?;
    let listener = TcpListener::bind(rt, shipping.listen)?;
    let questions = LogQuestions::new(rt.alloc(), FileText::of(beside, &source));
    let limit = silence(shipping.timeout);
    let mut callers = Callers::answering(rt.alloc(), &listener, rt, limit, questions);
    serve_next(rt.alloc(), &mut source, &mut callers, meetings, output)
}

/// Serves the next who comes and asks for the log, and then prints `sent=N`, the log bytes that it
/// sent. Who comes and asks for nothing is passed over. `ship` does this over a socket.
///
/// Session: as `Shipper::serve` says, of the last who came. Stream, Memory: nobody could be waited
/// for, or the output failed.
pub fn serve_next<S: Source, T: Read + Write + Drop, V: Visitors<T>, M: Meetings, O: Write>(
    alloc: Global,
    source: &mut S,
    visitors: &mut V,
    meetings: &mut M,
    output: &mut O,
) -> Result<(), Fault>
    // All of the source was sent to the last who came, from where it goes on, and nothing to those
    // before it; the line tells how much that was.
    ensures sent { (header : LogHeader) → take 16 (S.text source.old) ≡ header_bytes header.pages
        → header.pages ≤ 4096
        → OnOk result (TellsTo (S.text source.old) (S.seals source.old) header (V.met visitors.old)
        (V.met visitors.new) (O.contents output.old) (O.contents output.new)) }
    // A line is all that is printed.
    ensures told { OnOk result ((n : ℕ) × Appends (O.contents output.old) (O.contents output.new)
        (sent_line n)) }
    // Whatever ends it, what was sent are true frames of the source, to the last who came alone.
    ensures true_frames { SendsTrueTo (S.text source.old) (S.seals source.old) (V.met visitors.old)
        (V.met visitors.new) }
    // No frame is sent before the one in front of it was answered.
    ensures answered { IfErr result (λ f. (cause : AnyFault) → f ≡ Session cause
        → (kept : Option Lsn) × EndsServingTo (S.text source.old) (S.seals source.old) (V.met visitors.old)
        (V.met visitors.new) kept) }
    ensures same { S.text source.new ≡ S.text source.old }
    ensures kept { S.seals source.new ≡ S.seals source.old }
{
    for _ in 0..u64::MAX {
        let has_asked = receive(alloc, source, visitors, meetings, output)?;
        if has_asked {
            return Ok(());
        }
    }
    Err(Fault::Stream)
}

/// Serves the next who comes, if it asks for the log: then it prints how many log bytes it sent. It
/// answers whether it did.
fn receive<S: Source, T: Read + Write + Drop, V: Visitors<T>, M: Meetings, O: Write>(
    alloc: Global,
    source: &mut S,
    visitors: &mut V,
    meetings: &mut M,
    output: &mut O,
) -> Result<bool, Fault>
    ensures sent { (header : LogHeader) → take 16 (S.text source.old) ≡ header_bytes header.pages
        → header.pages ≤ 4096
        → IfOk result (λ asked. asked ≡ true → TellsLast (S.text source.old) (S.seals source.old) header
        (V.met visitors.old) (V.met visitors.new) (O.contents output.old)
        (O.contents output.new)) }
    ensures told { IfOk result (λ asked. asked ≡ true → (n : ℕ)
        × Appends (O.contents output.old) (O.contents output.new) (sent_line n)) }
    ensures passed { IfOk result (λ asked. asked ≡ false
        → PassesLast (V.met visitors.old) (V.met visitors.new)
        × (O.contents output.new ≡ O.contents output.old)) }
    ensures true_frames { (V.met visitors.new ≡ V.met visitors.old)
        ⊎ SendsLast (S.text source.old) (S.seals source.old) (V.met visitors.old) (V.met visitors.new) }
    ensures answered { IfErr result (λ f. (cause : AnyFault) → f ≡ Session cause
        → (kept : Option Lsn) × EndsLast (S.text source.old) (S.seals source.old) (V.met visitors.old)
        (V.met visitors.new) kept) }
    ensures same { S.text source.new ≡ S.text source.old }
    ensures kept { S.seals source.new ≡ S.seals source.old }
{
    let (mut reader, mut writer) = visitors.next()?;
    let mut shipper = Shipper::new();
    let served = serve(
        alloc,
        &mut shipper,
        source,
        &mut reader,
        &mut writer,
        output,
    );
    visitors.part(reader, writer);
    match served {
        Ok(()) => {
            meetings.acknowledged(shipper.acknowledged());
            Ok(true)
        }
        Err(Fault::Session(fault)) if has_asked_nothing(&shipper, fault) => {
            meetings.passed_over(fault);
            Ok(false)
        }
        Err(fault) => {
            meetings.acknowledged(shipper.acknowledged());
            Err(fault)
        }
    }
}

/// Did the other end ask for nothing? It was silent, went away, or sent what is no Resume frame.
fn has_asked_nothing(shipper: &Shipper, fault: SessionFault) -> bool
    ensures { result ≡ true → shipper.now.begun ≡ false }
{
    let is_none = asks_nothing(fault);
    is_none && !shipper.has_begun()
}

/// Whether this is how a session ends of one who asks for no log.
pub fn asks_nothing(fault: SessionFault) -> bool
    ensures { result ≡ asks_for_nothing fault }
{
    matches!(
        fault,
        SessionFault::BadFrame | SessionFault::Cut | SessionFault::Stream
    )
}

/// Serves a follower at the other end of two streams, and then prints how many log bytes it sent.
///
/// Session: as `Shipper::serve` says. Stream, Memory: the output failed.
pub fn serve<S: Source, R: Read, W: Write, O: Write>(
    alloc: Global,
    shipper: &mut Shipper,
    source: &mut S,
    reader: &mut R,
    writer: &mut W,
    output: &mut O,
) -> Result<(), Fault>
    // All of the source was sent from where the follower goes on, and the line tells how much that
    // was.
    ensures sent { (header : LogHeader) → take 16 (S.text source.old) ≡ header_bytes header.pages
        → header.pages ≤ 4096
        → OnOk result (Tells (S.text source.old) (S.seals source.old) header (R.remaining reader.old)
        (R.remaining reader.new) (W.contents writer.old) (W.contents writer.new)
        (O.contents output.old) (O.contents output.new)) }
    // A line is all that is printed.
    ensures told { OnOk result ((n : ℕ) × Appends (O.contents output.old) (O.contents output.new)
        (sent_line n)) }
    // Of a session that ends early nothing is printed.
    ensures quiet { IfErr result (λ f. (cause : AnyFault) → f ≡ Session cause
        → O.contents output.new ≡ O.contents output.old) }
    // Whatever ends it, what was sent are true frames of the source.
    ensures true_frames { SendsTrue (S.text source.old) (S.seals source.old) (W.contents writer.old)
        (W.contents writer.new) }
    // No frame is sent before the one in front of it was answered; the last answer is kept.
    ensures answered { IfErr result (λ f. (cause : AnyFault) → f ≡ Session cause
        → EndsServing (S.text source.old) (S.seals source.old) (R.remaining reader.old) (W.contents writer.old)
        (W.contents writer.new) shipper.new.acknowledged) }
    // Who asked for nothing was sent nothing.
    ensures begun { shipper.new.begun ≡ false → Appends (W.contents writer.old)
        (W.contents writer.new) [] }
    ensures same { S.text source.new ≡ S.text source.old }
    ensures kept { S.seals source.new ≡ S.seals source.old }
{
    let sent = shipper.serve(alloc, source, reader, writer)?;
    match tell_sent(sent, output) {
        Ok(()) => Ok(()),
        Err(fault) => Err(fault),
    }
}

/// Prints how many log bytes a session sent.
pub(crate) fn tell_sent<O: Write>(sent: u64, output: &mut O) -> Result<(), Fault>
    ensures line { OnOk result (Appends (O.contents output.old) (O.contents output.new)
        (sent_line sent)) }
    ensures fails { IfErr result IsOfReader }
{
    writeln!(output, "sent={sent}")?;
    Ok(())
}
