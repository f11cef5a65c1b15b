ghost use Rattle.std.specs.Prelude.{◌≡◌, ◌⊎◌, ◌<◌, ◌≤◌, ℕ, List, length, take, OnOk, IfOk, IfErr};
ghost use Rattle.std.specs.Io.KnownBytes.{Appends, Consumes, IsAtEnd};
ghost use Rattle.als_lookback.specs.Refusals.{IsOfTaker};

use als_lookback::Fault;
use std::io::{ErrorKind, Read, Write};

/// How many bytes are read at once.
const PIECE: usize = 16_384;

/// Writes all that a reader has left, and answers how many bytes that are.
///
/// Stream: the reader or the writer failed. Memory: an allocation of theirs failed.
#[tactic(auto, using(crate::proofs::Copied::copied_none, crate::proofs::Copied::copied_more))]
pub fn copy<R: Read, W: Write>(reader: &mut R, writer: &mut W) -> Result<u64, Fault>
    ensures copies { IfOk result (λ n. (bytes : List ℕ) × (length bytes ≡ n)
        × Consumes (R.remaining reader.old) (R.remaining reader.new) bytes
        × IsAtEnd (R.remaining reader.new)
        × Appends (W.contents writer.old) (W.contents writer.new) bytes) }
    ensures fails { IfErr result IsOfTaker }
{
    let mut piece = [0_u8; PIECE];
    let mut count = 0_u64;
    for _ in 0..u64::MAX {
        let n = read_piece(reader, &mut piece)?;
        if n == 0 {
            return Ok(count);
        }
        let Some(more) = count.checked_add(n as u64) else {
            return Err(Fault::Stream);
        };
        put(&piece[..n], writer)?;
        count = more;
    }
    Err(Fault::Stream)
}

/// Reads what comes next into a piece, and answers how many bytes that are: 0 where none is left.
///
/// Stream: the reader failed.
fn read_piece<R: Read>(reader: &mut R, piece: &mut [u8]) -> Result<usize, Fault>
    requires { 0 < length piece.old }
    ensures size { length piece.new ≡ length piece.old }
    ensures ok { IfOk result (λ n. (n ≤ length piece.new)
        × Consumes (R.remaining reader.old) (R.remaining reader.new) (take n piece.new)
        × (n ≡ 0 → IsAtEnd (R.remaining reader.new))) }
    ensures err { IfErr result IsOfTaker }
{
    for _ in 0..u64::MAX {
        match reader.read(piece) {
            Ok(n) => return Ok(n),
            Err(e) => {
                if e.kind() != ErrorKind::Interrupted {
                    return Err(Fault::from(e));
                }
            }
        }
    }
    Err(Fault::Stream)
}

/// Writes bytes.
fn put<W: Write>(bytes: &[u8], writer: &mut W) -> Result<(), Fault>
    ensures ok { OnOk result (Appends (W.contents writer.old) (W.contents writer.new) bytes.now) }
    ensures err { IfErr result IsOfTaker }
{
    writer.write_all(bytes)?;
    Ok(())
}
