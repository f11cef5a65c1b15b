ghost use Rattle.std.specs.Prelude.{◌≡◌, ◌∷◌, [], IfOk, IfErr};
ghost use Rattle.std.specs.Int.{w32, w64, to_be_bytes};
ghost use Rattle.std.specs.Io.KnownBytes.{Consumes};
ghost use Rattle.als_wire.specs.Faults.{IsOfStream};

use als_wire::Fault;
use std::io::Read;

/// The number that eight bytes spell.
fn long_of(bytes: [u8; 8]) -> u64
    ensures { to_be_bytes w64 result ≡ bytes }
{
    u64::from_be_bytes(bytes)
}

/// The number that four bytes spell.
fn word_of(bytes: [u8; 4]) -> u32
    ensures { to_be_bytes w32 result ≡ bytes }
{
    u32::from_be_bytes(bytes)
}

/// Reads a number of eight bytes.
pub(crate) fn read_long<R: Read>(reader: &mut R) -> Result<u64, Fault>
    ensures found { IfOk result (λ n. Consumes (R.remaining reader.old) (R.remaining reader.new)
        (to_be_bytes w64 n)) }
    ensures fails { IfErr result IsOfStream }
{
    let mut bytes = [0u8; 8];
    reader.read_exact(&mut bytes)?;
    Ok(long_of(bytes))
}

/// Reads a number of four bytes.
pub(crate) fn read_word<R: Read>(reader: &mut R) -> Result<u32, Fault>
    ensures found { IfOk result (λ n. Consumes (R.remaining reader.old) (R.remaining reader.new)
        (to_be_bytes w32 n)) }
    ensures fails { IfErr result IsOfStream }
{
    let mut bytes = [0u8; 4];
    reader.read_exact(&mut bytes)?;
    Ok(word_of(bytes))
}

/// Reads a digest.
pub(crate) fn read_digest<R: Read>(reader: &mut R) -> Result<[u8; 32], Fault>
    ensures found { IfOk result (λ digest. Consumes (R.remaining reader.old)
        (R.remaining reader.new) digest) }
    ensures fails { IfErr result IsOfStream }
{
    let mut digest = [0u8; 32];
    reader.read_exact(&mut digest)?;
    Ok(digest)
}

/// Reads one byte, as the first of a frame. Cut: the stream has ended. Stream: it failed.
pub fn read_byte<R: Read>(reader: &mut R) -> Result<u8, Fault>
    ensures found { IfOk result (λ byte. Consumes (R.remaining reader.old) (R.remaining reader.new)
        (byte ∷ [])) }
    ensures fails { IfErr result IsOfStream }
{
    let mut bytes = [0u8; 1];
    reader.read_exact(&mut bytes)?;
    Ok(bytes[0])
}
