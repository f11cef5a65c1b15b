ghost use Rattle.std.specs.Prelude.{◌≡◌, ◌≤◌, ℕ, List, Option, length, IfErr, OnOk, OnErr};
ghost use Rattle.std.specs.Io.KnownBytes.{Keeps};
ghost use Rattle.als_ship.specs.declared.fault.Fault.TheVariants as fault;
ghost use Rattle.als_ship.specs.Wire.{FailsToPour};
ghost use Rattle.als_sending.specs.Reads.{Read as AnyRead};
ghost use Rattle.als_sending.specs.Going.{IsWay, Goes, Stops, Closes};

use crate::growing::Growing;
use crate::marks::Marks;
use crate::stepping::{beat, hear, turn};
use crate::way::Way;
use als_ship::Fault;
use als_wire::write_data;
use std::io::{Read, Write};

/// Sends the log from the position on, until it ends, and reads the answers.
pub(crate) fn pour<G: Growing, M: Marks, R: Read, W: Write>(
    log: &mut G,
    marks: &mut M,
    way: &mut Way,
    room: &mut [u8],
    reader: &mut R,
    writer: &mut W,
) -> Result<(), Fault>
    requires is { IsWay way.old (G.shown log.old) }
    requires none { way.old.ahead ≡ 0 }
    requires room { length room.old ≡ 65536 }
    ensures closes { OnOk result (Closes way.old (G.shown log.new) (G.reads log.old)
        (G.reads log.new) (M.heard marks.old) (M.heard marks.new) (R.remaining reader.old)
        (R.remaining reader.new) (W.contents writer.old) (W.contents writer.new)) }
    ensures stops { OnErr result (Stops way.old (G.reads log.old) (G.reads log.new)
        (M.heard marks.old) (M.heard marks.new) (R.remaining reader.old) (W.contents writer.old)
        (W.contents writer.new)) }
    ensures end { OnOk result (way.new.at ≡ G.shown log.new) }
    ensures rises { G.shown log.old ≤ G.shown log.new }
    ensures begun { Keeps (M.begun marks.old) (M.begun marks.new) }
    ensures seals { G.seals log.new ≡ G.seals log.old }
    ensures pages { G.pages log.new ≡ G.pages log.old }
    ensures fails { IfErr result (λ f. FailsToPour f (R.remaining reader.old)) }
{
    greet(log, marks, way, room, writer)?;
    for _ in 0..u64::MAX {
        if !turn(log, marks, way, room, reader, writer)? {
            close(marks, way, reader, writer)?;
            return Ok(());
        }
    }
    Err(Fault::Stream)
}

/// Where there is nothing new for the follower, it is sent a byte that it has, so that it is answered
/// at once. A log that does not beat sends nothing, and is waited for.
fn greet<G: Growing, M: Marks, W: Write>(
    log: &mut G,
    marks: &mut M,
    way: &mut Way,
    room: &mut [u8],
    writer: &mut W,
) -> Result<(), Fault>
    requires is { IsWay way.old (G.shown log.old) }
    requires none { way.old.ahead ≡ 0 }
    requires room { length room.old ≡ 65536 }
    ensures goes { OnOk result ((heard : List ℕ) (asked : Option (List ℕ)) → Goes way.old way.new
        (G.reads log.old) (G.reads log.new) heard heard asked asked (W.contents writer.old)
        (W.contents writer.new)) }
    ensures stops { OnErr result ((heard : List ℕ) (asked : Option (List ℕ)) → Stops way.old
        (G.reads log.old) (G.reads log.new) heard heard asked (W.contents writer.old)
        (W.contents writer.new)) }
    ensures is { IsWay way.new (G.shown log.new) }
    ensures heard { M.heard marks.new ≡ M.heard marks.old }
    ensures begun { Keeps (M.begun marks.old) (M.begun marks.new) }
    ensures shown { G.shown log.new ≡ G.shown log.old }
    ensures seals { G.seals log.new ≡ G.seals log.old }
    ensures pages { G.pages log.new ≡ G.pages log.old }
    ensures fails { IfErr result (λ f. f ≡ fault.Stream) }
{
    if way.at < way.end || !log.beats() {
        return Ok(());
    }
    beat(log, marks, way, room, writer)?;
    Ok(())
}

/// Sends the empty frame, and reads its answer.
fn close<M: Marks, R: Read, W: Write>(
    marks: &mut M,
    way: &Way,
    reader: &mut R,
    writer: &mut W,
) -> Result<(), Fault>
    requires some { 1 ≤ way.now.window }
    requires answered { way.now.ahead ≡ 0 }
    ensures closes { OnOk result ((reads : List AnyRead) → Closes way.now way.now.at reads reads
        (M.heard marks.old) (M.heard marks.new) (R.remaining reader.old) (R.remaining reader.new)
        (W.contents writer.old) (W.contents writer.new)) }
    ensures stops { OnErr result ((reads : List AnyRead) → Stops way.now reads reads
        (M.heard marks.old) (M.heard marks.new) (R.remaining reader.old) (W.contents writer.old)
        (W.contents writer.new)) }
    ensures begun { Keeps (M.begun marks.old) (M.begun marks.new) }
    ensures fails { IfErr result (λ f. FailsToPour f (R.remaining reader.old)) }
{
    write_data(writer, way.epoch, way.at, &[])?;
    let lsn = hear(reader)?;
    marks.acknowledge(lsn);
    Ok(())
}
