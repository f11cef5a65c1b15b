ghost use Rattle.std.specs.Prelude.{◌≡◌, IfOk, IfErr, OnOk};
ghost use Rattle.std.specs.Io.KnownBytes.{Consumes, Appends};
ghost use Rattle.als_wire.specs.Faults.{IsOfStream};
ghost use Rattle.als_compare.specs.Ids.{id_bytes};
ghost use Rattle.als_compare.specs.Reading.{FailsToRead, IsOtherTag};

use crate::frames::{put, read_tag};
use als_wire::Fault;
use std::io::{Read, Write};

/// The byte with which the id of a follower's folder begins: the letter I.
pub const ID_TAG: u8 = 73;

/// An id as bytes.
fn spelled(id: &[u8; 16]) -> [u8; 17]
    ensures { result ≡ id_bytes id.now }
{
    let mut bytes = [0; 17];
    bytes[0] = ID_TAG;
    let (_, rest) = bytes.split_at_mut(1);
    rest.copy_from_slice(id);
    bytes
}

/// Writes the id of a follower's folder, and hands it on. A session's frames follow. Cut, Stream: the writer
/// failed.
pub fn write_id<W: Write>(writer: &mut W, id: &[u8; 16]) -> Result<(), Fault>
    ensures all { OnOk result (Appends (W.contents writer.old) (W.contents writer.new)
        (id_bytes id.now)) }
    ensures fails { IfErr result IsOfStream }
{
    let bytes = spelled(id);
    put(writer, &bytes)
}

/// Reads what is behind the first byte of an id.
///
/// Cut: the stream ended before the id did. Stream: the reader failed.
pub fn read_id<R: Read>(reader: &mut R) -> Result<[u8; 16], Fault>
    ensures found { IfOk result (λ id. Consumes (R.remaining reader.old) (R.remaining reader.new)
        id) }
    ensures fails { IfErr result IsOfStream }
{
    let mut id = [0u8; 16];
    reader.read_exact(&mut id)?;
    Ok(id)
}

/// Reads an id, where a session's frames follow.
///
/// BadFrame: another byte stands there than the one with which an id begins. Cut: the stream ended before the id did.
/// Stream: the reader failed.
#[tactic(auto, using(crate::proofs::Parts::id_read, crate::proofs::Parts::of_stream))]
pub fn read_whole_id<R: Read>(reader: &mut R) -> Result<[u8; 16], Fault>
    ensures found { IfOk result (λ id. Consumes (R.remaining reader.old) (R.remaining reader.new)
        (id_bytes id)) }
    ensures fails { IfErr result (λ f. FailsToRead (IsOtherTag 73) f (R.remaining reader.old)
        (R.remaining reader.new)) }
{
    read_tag(reader, ID_TAG)?;
    let id = read_id(reader)?;
    Ok(id)
}
