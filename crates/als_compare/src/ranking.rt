ghost use Rattle.std.specs.Prelude.{◌≡◌, ◌⊎◌, IfOk, IfErr, OnOk};
ghost use Rattle.std.specs.Io.KnownBytes.{Consumes, Appends};
ghost use Rattle.als_wire.specs.declared.fault.Fault.TheVariants as fault;
ghost use Rattle.als_wire.specs.Faults.{IsOfStream};
ghost use Rattle.als_compare.specs.Ranks.{rank_question_bytes, rank_bytes, rank_numbers};
ghost use Rattle.als_compare.specs.Reading.{FailsToRead, IsOtherTag};

use crate::frames::{put, read_tag};
use crate::numbers::read_long;
use crate::rank::Rank;
use als_wire::Fault;
use byteorder::{BigEndian, ByteOrder};
use std::io::{Read, Write};

/// The byte that asks for a node's rank, and with which the answer begins: the letter R.
pub const RANK_TAG: u8 = 82;

/// A rank as bytes.
#[tactic(auto, unfolding(crate::specs::Ranks::rank_numbers))]
fn spelled(rank: Rank) -> [u8; 17]
    ensures { result ≡ rank_bytes rank }
{
    let mut bytes = [0; 17];
    bytes[0] = RANK_TAG;
    BigEndian::write_u64(&mut bytes[1..], rank.seal);
    BigEndian::write_u64(&mut bytes[9..], rank.end);
    bytes
}

/// Writes a rank, and hands it on. Cut, Stream: the writer failed.
pub fn write_rank<W: Write>(writer: &mut W, rank: Rank) -> Result<(), Fault>
    ensures all { OnOk result (Appends (W.contents writer.old) (W.contents writer.new)
        (rank_bytes rank)) }
    ensures fails { IfErr result IsOfStream }
{
    let bytes = spelled(rank);
    put(writer, &bytes)
}

/// Reads what stands behind the first byte of a rank.
#[tactic(auto, using(crate::proofs::Parts::numbers_read))]
fn read_numbers<R: Read>(reader: &mut R) -> Result<Rank, Fault>
    ensures found { IfOk result (λ rank. Consumes (R.remaining reader.old) (R.remaining reader.new)
        (rank_numbers rank)) }
    ensures fails { IfErr result IsOfStream }
{
    let seal = read_long(reader)?;
    let end = read_long(reader)?;
    Ok(Rank { seal, end })
}

/// Reads a rank.
///
/// BadFrame: another byte stands there than the one with which a rank begins. Cut: the stream ended before the
/// rank did. Stream: the reader failed.
#[tactic(auto, using(crate::proofs::Parts::rank_read, crate::proofs::Parts::of_stream))]
pub fn read_rank<R: Read>(reader: &mut R) -> Result<Rank, Fault>
    ensures found { IfOk result (λ rank. Consumes (R.remaining reader.old) (R.remaining reader.new)
        (rank_bytes rank)) }
    ensures fails { IfErr result (λ f. FailsToRead (IsOtherTag 82) f (R.remaining reader.old)
        (R.remaining reader.new)) }
{
    read_tag(reader, RANK_TAG)?;
    let rank = read_numbers(reader)?;
    Ok(rank)
}

/// Asks a node over two streams for its rank. It answers what the node did.
///
/// BadFrame: what came is no rank, as from a node that does not tell its own. Cut: the stream ended before a
/// rank came, as such a node does too. Stream: it failed.
pub fn ask_rank<R: Read, W: Write>(reader: &mut R, writer: &mut W) -> Result<Rank, Fault>
    ensures asked { IfOk result (λ _. Appends (W.contents writer.old) (W.contents writer.new)
        rank_question_bytes) }
    ensures answered { IfOk result (λ rank. Consumes (R.remaining reader.old)
        (R.remaining reader.new) (rank_bytes rank)) }
    ensures fails { IfErr result (λ f. IsOfStream f ⊎ (f ≡ fault.BadFrame)) }
{
    put(writer, &[RANK_TAG])?;
    let rank = read_rank(reader)?;
    Ok(rank)
}
