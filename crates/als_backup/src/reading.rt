ghost use Rattle.std.specs.Prelude.{◌≡◌, ◌<◌, ◌≤◌, ◌++◌, ◌↔◌, ℕ, List, [], length, take, IsTrue, OnOk, IfOk};
ghost use Rattle.std.specs.Io.KnownBytes.{Consumes, Appends, IsAtEnd};
ghost use Rattle.sha2.specs.Sha256.{sha256};
ghost use Rattle.als_record.specs.LogText.{header_bytes};
ghost use Rattle.als_compare.specs.Summaries.{Sums};
ghost use Rattle.als_lookback.specs.Judged.{begun};
ghost use Rattle.als_backup.specs.Texts.{held_in};

use crate::fault::Fault;
use crate::text::Text;
use als_compare::Summing;
use als_lookback::Fault as LookFault;
use als_operate::Fault as NodeFault;
use als_record::LogHeader;
use als_ship::Fault as SessionFault;
use std::alloc::Global;
use std::io::{ErrorKind, Read, Write};

/// How many bytes are read at once.
const PIECE: usize = 65_536;

/// Reads what comes next into a piece, and answers how many bytes that are: 0 where none is left.
fn read_piece<R: Read>(reader: &mut R, piece: &mut [u8]) -> Result<usize, Fault>
    requires { 0 < length piece.old }
    ensures size { length piece.new ≡ length piece.old }
    ensures ok { IfOk result (λ n. (n ≤ length piece.new)
        × Consumes (R.remaining reader.old) (R.remaining reader.new) (take n piece.new)
        × (n ≡ 0 → IsAtEnd (R.remaining reader.new))) }
{
    for _ in 0..u64::MAX {
        match reader.read(piece) {
            Ok(n) => return Ok(n),
            Err(e) => {
                if e.kind() != ErrorKind::Interrupted {
                    return Err(Fault::from(e));
                }
            }
        }
    }
    Err(Fault::Look(LookFault::Stream))
}

/// The text of a log, as far as a reader has it. It may end within a record.
///
/// BadHeader: it begins with no header. Shape, Invalid: it is no log. Stream: the reader failed. Memory: an
/// allocation failed.
pub fn recall<R: Read>(alloc: Global, reader: &mut R) -> Result<Text, Fault>
    ensures all { IfOk result (λ text. Consumes (R.remaining reader.old) (R.remaining reader.new)
        (held_in text)) }
    ensures end { OnOk result (IsAtEnd (R.remaining reader.new)) }
{
    let mut text = begin(alloc, reader)?;
    let mut piece = vec![in alloc; 0_u8; PIECE]?;
    add_all(alloc, reader, &mut text, &mut piece)?;
    Ok(text)
}

/// The header of the log that a reader has.
///
/// BadHeader: it begins with none. Stream: the reader failed. Memory: an allocation failed.
pub(crate) fn begin<R: Read>(alloc: Global, reader: &mut R) -> Result<Text, Fault>
    ensures header { IfOk result (λ text. Consumes (R.remaining reader.old) (R.remaining reader.new)
        (held_in text)) }
    ensures none { IfOk result (λ text. text ≡ begun text.pages) }
{
    let mut front = [0_u8; 16];
    match reader.read_exact(&mut front) {
        Ok(()) => {}
        Err(e) if e.kind() == ErrorKind::UnexpectedEof => {
            return Err(Fault::Look(LookFault::BadHeader));
        }
        Err(e) => return Err(Fault::from(e)),
    }
    let pages = pages_of(&front)?;
    let text = Text::new(alloc, pages)?;
    Ok(text)
}

/// The page count that a header says.
fn pages_of(front: &[u8; 16]) -> Result<u32, LookFault>
    ensures { IfOk result (λ pages. front.now ≡ header_bytes pages) }
{
    match LogHeader::decode(front) {
        Ok(Some(header)) => Ok(header.pages),
        Ok(None) | Err(_) => Err(LookFault::BadHeader),
    }
}

/// Adds all that a reader has left to a text.
fn add_all<R: Read>(
    alloc: Global,
    reader: &mut R,
    text: &mut Text,
    piece: &mut [u8],
) -> Result<(), Fault>
    requires { 0 < length piece.old }
    ensures all { OnOk result ((more : List ℕ) × (held_in text.new ≡ held_in text.old ++ more)
        × Consumes (R.remaining reader.old) (R.remaining reader.new) more) }
    ensures end { OnOk result (IsAtEnd (R.remaining reader.new)) }
{
    for _ in 0..u64::MAX {
        let n = read_piece(reader, piece)?;
        if n == 0 {
            return Ok(());
        }
        text.take(alloc, &piece[..n])?;
    }
    Err(Fault::Look(LookFault::Stream))
}

/// Adds all that a reader has left to a text, and writes it.
///
/// Cut: it ends within a record. Else as `recall`; Stream: the output failed, too.
pub fn pour<R: Read, O: Write>(
    alloc: Global,
    reader: &mut R,
    text: &mut Text,
    output: &mut O,
) -> Result<(), Fault>
    // What was written is all that the reader had left, and a record ends there.
    ensures all { OnOk result ((more : List ℕ) × (held_in text.new ≡ held_in text.old ++ more)
        × Consumes (R.remaining reader.old) (R.remaining reader.new) more
        × Appends (O.contents output.old) (O.contents output.new) more) }
    ensures end { OnOk result (IsAtEnd (R.remaining reader.new)) }
    ensures whole { OnOk result (text.new.kept ≡ []) }
{
    let mut piece = vec![in alloc; 0_u8; PIECE]?;
    pour_all(alloc, reader, text, &mut piece, output)?;
    check_whole(text)?;
    Ok(())
}

/// That no byte is left behind the records.
fn check_whole(text: &Text) -> Result<(), Fault>
    ensures { OnOk result (text.now.kept ≡ []) }
{
    if text.position() == text.end().0 {
        Ok(())
    } else {
        Err(Fault::Look(LookFault::Cut))
    }
}

/// The same piece by piece, also where it ends within a record.
fn pour_all<R: Read, O: Write>(
    alloc: Global,
    reader: &mut R,
    text: &mut Text,
    piece: &mut [u8],
    output: &mut O,
) -> Result<(), Fault>
    requires { 0 < length piece.old }
    ensures all { OnOk result ((more : List ℕ) × (held_in text.new ≡ held_in text.old ++ more)
        × Consumes (R.remaining reader.old) (R.remaining reader.new) more
        × Appends (O.contents output.old) (O.contents output.new) more) }
    ensures end { OnOk result (IsAtEnd (R.remaining reader.new)) }
{
    for _ in 0..u64::MAX {
        let n = read_piece(reader, piece)?;
        if n == 0 {
            return Ok(());
        }
        let new = &piece[..n];
        text.take(alloc, new)?;
        output.write_all(new)?;
    }
    Err(Fault::Look(LookFault::Stream))
}

/// That the next bytes of a reader are those of a text, by their digest.
///
/// OtherLog: they are others. Gap: the reader has fewer.
pub fn check_front<R: Read>(alloc: Global, reader: &mut R, text: &Text) -> Result<(), Fault>
    ensures { OnOk result ((front : List ℕ) × (sha256 front ≡ sha256 (held_in text.now))
        × Consumes (R.remaining reader.old) (R.remaining reader.new) front) }
{
    let mut piece = vec![in alloc; 0_u8; PIECE]?;
    let summing = sum_front(reader, text.position(), &mut piece)?;
    check_sum(&summing, text)?;
    Ok(())
}

/// That a sum is that of a text.
fn check_sum(summing: &Summing, text: &Text) -> Result<(), Fault>
    ensures { OnOk result ((front : List ℕ) → Sums summing.now front
        → sha256 front ≡ sha256 (held_in text.now)) }
{
    let (one, other) = (summing.summary(0), text.summary(0));
    if is_same(&one.digest, &other.digest) {
        Ok(())
    } else {
        Err(Fault::Node(NodeFault::OtherLog))
    }
}

/// Whether two digests are one.
fn is_same(one: &[u8; 32], other: &[u8; 32]) -> bool
    ensures { IsTrue result ↔ (one.now ≡ other.now) }
{
    one.as_slice() == other.as_slice()
}

/// The sum of the next bytes of a reader, up to so many.
fn sum_front<R: Read>(reader: &mut R, count: u64, piece: &mut [u8]) -> Result<Summing, Fault>
    requires { 0 < length piece.old }
    ensures { IfOk result (λ s. (front : List ℕ) × Sums s front
        × Consumes (R.remaining reader.old) (R.remaining reader.new) front) }
{
    let mut summing = Summing::new();
    for _ in 0..u64::MAX {
        let left = count.saturating_sub(summing.end());
        if left == 0 {
            return Ok(summing);
        }
        let asked = left.min(piece.len() as u64) as usize;
        let n = read_piece(reader, &mut piece[..asked])?;
        if n == 0 {
            return Err(Fault::from(SessionFault::Gap));
        }
        summing.add(&piece[..n]);
    }
    Err(Fault::Look(LookFault::Stream))
}
