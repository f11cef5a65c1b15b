ghost use Rattle.std.specs.Prelude.{◌≡◌, ◌≤◌, ◌<◌, ◌+◌, ◌^◌, length, false, IfOk, IfErr};
ghost use Rattle.std.specs.Prelude.{OnOk, OnErr, ℕ, List, Option};
ghost use Rattle.std.specs.Io.KnownBytes.{Consumes, Keeps};
ghost use Rattle.als_wire.specs.declared.tag.Tag.TheVariants as tag;
ghost use Rattle.als_wire.specs.Frames.{acknowledged_bytes};
ghost use Rattle.als_wire.specs.Reading.{FailsToRead};
ghost use Rattle.als_ship.specs.declared.fault.Fault.TheVariants as fault;
ghost use Rattle.als_ship.specs.Wire.{FailsToPour};
ghost use Rattle.als_sending.specs.Reads.{Read as AnyRead};
ghost use Rattle.als_sending.specs.Going.{IsWay, Goes, Stops};
ghost use Rattle.als_sending.specs.Stepping.{SendsOne, SendsPart};

use crate::growing::Growing;
use crate::grown::Grown;
use crate::marks::Marks;
use crate::way::Way;
use als_record::Lsn;
use als_ship::{Fault, PIECE_LIMIT};
use als_wire::{Fault as WireFault, read_acknowledged, write_data};
use std::io::{Read, Write};

/// Reads the bytes from an offset on, as many as there is room for, and sends them. That they are sent is noted
/// behind the read and in front of the sending.
fn send<G: Growing, M: Marks, W: Write>(
    log: &mut G,
    marks: &mut M,
    writer: &mut W,
    epoch: u32,
    at: u64,
    room: &mut [u8],
) -> Result<(), Fault>
    requires inside { at + length room.old ≤ G.shown log.old }
    requires few { length room.old ≤ 65536 }
    ensures sent { OnOk result (SendsOne epoch at (length room.old) (G.reads log.old)
        (G.reads log.new) (W.contents writer.old) (W.contents writer.new)) }
    ensures part { OnErr result (SendsPart epoch at (G.reads log.old) (G.reads log.new)
        (W.contents writer.old) (W.contents writer.new)) }
    ensures heard { M.heard marks.new ≡ M.heard marks.old }
    ensures begun { Keeps (M.begun marks.old) (M.begun marks.new) }
    ensures shown { G.shown log.new ≡ G.shown log.old }
    ensures seals { G.seals log.new ≡ G.seals log.old }
    ensures pages { G.pages log.new ≡ G.pages log.old }
    ensures fails { IfErr result (λ f. f ≡ fault.Stream) }
{
    log.read_at(at, room)?;
    marks.send();
    write_data(writer, epoch, at, room)?;
    Ok(())
}

/// Sends the next piece of the log.
fn forward<G: Growing, M: Marks, W: Write>(
    log: &mut G,
    marks: &mut M,
    way: &mut Way,
    room: &mut [u8],
    writer: &mut W,
) -> Result<(), Fault>
    requires is { IsWay way.old (G.shown log.old) }
    requires there { way.old.at < way.old.end }
    requires free { way.old.ahead < way.old.window }
    requires room { length room.old ≡ 65536 }
    ensures goes { OnOk result ((heard : List ℕ) (asked : Option (List ℕ)) → Goes way.old way.new
        (G.reads log.old) (G.reads log.new) heard heard asked asked (W.contents writer.old)
        (W.contents writer.new)) }
    ensures stops { OnErr result ((heard : List ℕ) (asked : Option (List ℕ)) → Stops way.old
        (G.reads log.old) (G.reads log.new) heard heard asked (W.contents writer.old)
        (W.contents writer.new)) }
    ensures is { IsWay way.new (G.shown log.new) }
    ensures heard { M.heard marks.new ≡ M.heard marks.old }
    ensures begun { Keeps (M.begun marks.old) (M.begun marks.new) }
    ensures shown { G.shown log.new ≡ G.shown log.old }
    ensures seals { G.seals log.new ≡ G.seals log.old }
    ensures pages { G.pages log.new ≡ G.pages log.old }
    ensures fails { IfErr result (λ f. f ≡ fault.Stream) }
{
    let len = (way.end - way.at).min(PIECE_LIMIT as u64);
    send(
        log,
        marks,
        writer,
        way.epoch,
        way.at,
        &mut room[..len as usize],
    )?;
    way.at += len;
    way.ahead += 1;
    Ok(())
}

/// Sends the byte before the position once more, if there is one: the follower has it, and answers it
/// all the same. So both ends know that the other one is there.
pub(crate) fn beat<G: Growing, M: Marks, W: Write>(
    log: &mut G,
    marks: &mut M,
    way: &mut Way,
    room: &mut [u8],
    writer: &mut W,
) -> Result<(), Fault>
    requires is { IsWay way.old (G.shown log.old) }
    requires free { way.old.ahead < way.old.window }
    requires room { length room.old ≡ 65536 }
    ensures goes { OnOk result ((heard : List ℕ) (asked : Option (List ℕ)) → Goes way.old way.new
        (G.reads log.old) (G.reads log.new) heard heard asked asked (W.contents writer.old)
        (W.contents writer.new)) }
    ensures stops { OnErr result ((heard : List ℕ) (asked : Option (List ℕ)) → Stops way.old
        (G.reads log.old) (G.reads log.new) heard heard asked (W.contents writer.old)
        (W.contents writer.new)) }
    ensures is { IsWay way.new (G.shown log.new) }
    ensures heard { M.heard marks.new ≡ M.heard marks.old }
    ensures begun { Keeps (M.begun marks.old) (M.begun marks.new) }
    ensures shown { G.shown log.new ≡ G.shown log.old }
    ensures seals { G.seals log.new ≡ G.seals log.old }
    ensures pages { G.pages log.new ≡ G.pages log.old }
    ensures fails { IfErr result (λ f. f ≡ fault.Stream) }
{
    if way.at == 0 {
        return Ok(());
    }
    send(log, marks, writer, way.epoch, way.at - 1, &mut room[..1])?;
    way.ahead += 1;
    Ok(())
}

/// Reads an answer.
pub(crate) fn hear<R: Read>(reader: &mut R) -> Result<Lsn, WireFault>
    ensures found { IfOk result (λ lsn. Consumes (R.remaining reader.old) (R.remaining reader.new)
        (acknowledged_bytes lsn.0)) }
    ensures fits { IfOk result (λ lsn. lsn.0 < 2 ^ 64) }
    ensures fails { IfErr result (λ f. FailsToRead tag.Acknowledged f (R.remaining reader.old)
        (R.remaining reader.new)) }
{
    match read_acknowledged(reader) {
        Ok(lsn) => Ok(lsn),
        Err(fault) => Err(fault),
    }
}

/// Reads the answer to a frame, and acknowledges it.
fn take_answer<M: Marks, R: Read>(marks: &mut M, way: &mut Way, reader: &mut R) -> Result<(), Fault>
    requires out { 0 < way.old.ahead }
    ensures goes { OnOk result ((reads : List AnyRead) (written : Option (List ℕ))
        → Goes way.old way.new reads reads (M.heard marks.old) (M.heard marks.new)
        (R.remaining reader.old) (R.remaining reader.new) written written) }
    ensures same { OnErr result (M.heard marks.new ≡ M.heard marks.old) }
    ensures at { way.new.at ≡ way.old.at }
    ensures end { way.new.end ≡ way.old.end }
    ensures window { way.new.window ≡ way.old.window }
    ensures ahead { way.new.ahead ≤ way.old.ahead }
    ensures begun { Keeps (M.begun marks.old) (M.begun marks.new) }
    ensures fails { IfErr result (λ f. FailsToPour f (R.remaining reader.old)) }
{
    let lsn = hear(reader)?;
    marks.acknowledge(lsn);
    way.ahead -= 1;
    Ok(())
}

/// Waits for the log to grow. Answers whether more of it may come: none does where it ends, nor where it did not
/// grow for a beat and does not beat.
fn wait<G: Growing, M: Marks, W: Write>(
    log: &mut G,
    marks: &mut M,
    way: &mut Way,
    room: &mut [u8],
    writer: &mut W,
) -> Result<bool, Fault>
    requires is { IsWay way.old (G.shown log.old) }
    requires answered { way.old.ahead ≡ 0 }
    requires room { length room.old ≡ 65536 }
    ensures goes { OnOk result ((heard : List ℕ) (asked : Option (List ℕ)) → Goes way.old way.new
        (G.reads log.old) (G.reads log.new) heard heard asked asked (W.contents writer.old)
        (W.contents writer.new)) }
    ensures stops { OnErr result ((heard : List ℕ) (asked : Option (List ℕ)) → Stops way.old
        (G.reads log.old) (G.reads log.new) heard heard asked (W.contents writer.old)
        (W.contents writer.new)) }
    ensures is { OnOk result (IsWay way.new (G.shown log.new)) }
    ensures ends { IfOk result (λ more. more ≡ false → way.new ≡ way.old) }
    ensures heard { M.heard marks.new ≡ M.heard marks.old }
    ensures begun { Keeps (M.begun marks.old) (M.begun marks.new) }
    ensures rises { G.shown log.old ≤ G.shown log.new }
    ensures seals { G.seals log.new ≡ G.seals log.old }
    ensures pages { G.pages log.new ≡ G.pages log.old }
    ensures fails { IfErr result (λ f. f ≡ fault.Stream) }
{
    match log.wait_past(way.at)? {
        Grown::Past => {
            way.end = log.end()?;
            Ok(true)
        }
        Grown::Beat if log.beats() => {
            beat(log, marks, way, room, writer)?;
            Ok(true)
        }
        Grown::Beat | Grown::Ends => Ok(false),
    }
}

/// One step of a session: a piece is sent, or an answer is heard, or the log is waited for. Answers
/// whether more of it may come.
pub(crate) fn turn<G: Growing, M: Marks, R: Read, W: Write>(
    log: &mut G,
    marks: &mut M,
    way: &mut Way,
    room: &mut [u8],
    reader: &mut R,
    writer: &mut W,
) -> Result<bool, Fault>
    requires is { IsWay way.old (G.shown log.old) }
    requires room { length room.old ≡ 65536 }
    ensures goes { OnOk result (Goes way.old way.new (G.reads log.old) (G.reads log.new)
        (M.heard marks.old) (M.heard marks.new) (R.remaining reader.old) (R.remaining reader.new)
        (W.contents writer.old) (W.contents writer.new)) }
    ensures stops { OnErr result (Stops way.old (G.reads log.old) (G.reads log.new)
        (M.heard marks.old) (M.heard marks.new) (R.remaining reader.old) (W.contents writer.old)
        (W.contents writer.new)) }
    ensures is { OnOk result (IsWay way.new (G.shown log.new)) }
    ensures ends { IfOk result (λ more. more ≡ false → (way.new.ahead ≡ 0)
        × (way.new.at ≡ G.shown log.new)) }
    ensures rises { G.shown log.old ≤ G.shown log.new }
    ensures begun { Keeps (M.begun marks.old) (M.begun marks.new) }
    ensures seals { G.seals log.new ≡ G.seals log.old }
    ensures pages { G.pages log.new ≡ G.pages log.old }
    ensures fails { IfErr result (λ f. FailsToPour f (R.remaining reader.old)) }
{
    if way.at < way.end && way.ahead < way.window {
        forward(log, marks, way, room, writer)?;
        return Ok(true);
    }
    if way.ahead > 0 {
        take_answer(marks, way, reader)?;
        way.end = log.end()?;
        return Ok(true);
    }
    let more = wait(log, marks, way, room, writer)?;
    Ok(more)
}
