ghost use Rattle.std.specs.Prelude.{◌≡◌, IfOk, IfErr};
ghost use Rattle.std.specs.Int.{w32, w64, to_be_bytes};
ghost use Rattle.std.specs.Io.KnownBytes.{Consumes};
ghost use Rattle.als_wire.specs.Faults.{IsOfStream};

use crate::fault::Fault;
use std::io::Read;

/// The number that eight bytes spell.
fn long_of(bytes: [u8; 8]) -> u64
    ensures { to_be_bytes w64 result ≡ bytes }
{
    u64::from_be_bytes(bytes)
}

/// The number that four bytes spell.
fn word_of(bytes: [u8; 4]) -> u32
    ensures { to_be_bytes w32 result ≡ bytes }
{
    u32::from_be_bytes(bytes)
}

/// Reads a number of eight bytes.
pub(crate) fn read_long<R: Read>(reader: &mut R) -> Result<u64, Fault>
    ensures found { IfOk result (λ n. Consumes (R.remaining reader.old) (R.remaining reader.new)
        (to_be_bytes w64 n)) }
    ensures fails { IfErr result IsOfStream }
{
    let mut bytes = [0u8; 8];
    reader.read_exact(&mut bytes)?;
    Ok(long_of(bytes))
}

/// Reads a number of four bytes.
pub(crate) fn read_word<R: Read>(reader: &mut R) -> Result<u32, Fault>
    ensures found { IfOk result (λ n. Consumes (R.remaining reader.old) (R.remaining reader.new)
        (to_be_bytes w32 n)) }
    ensures fails { IfErr result IsOfStream }
{
    let mut bytes = [0u8; 4];
    reader.read_exact(&mut bytes)?;
    Ok(word_of(bytes))
}
