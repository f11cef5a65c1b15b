ghost use Rattle.std.specs.Prelude.{◌≡◌, ◌≤◌, ◌<◌, [], length, take, IfOk, IfErr, OnOk};
ghost use Rattle.std.specs.Io.KnownBytes.{Appends};
ghost use Rattle.als_wire.specs.declared.fault.Fault.TheVariants as fault;
ghost use Rattle.als_wire.specs.Sending.{Puts};

use crate::fault::Fault;
use std::io::{ErrorKind, Write};

/// Writes some of the bytes, none where a signal came between. Stream: the writer failed, or takes
/// no more.
#[tactic(auto, using(crate::proofs::Putting::appends_kept, crate::proofs::Putting::appends_none))]
fn put_some<W: Write>(writer: &mut W, bytes: &[u8]) -> Result<usize, Fault>
    ensures some { IfOk result (λ n. (n ≤ length bytes.now)
        × Appends (W.contents writer.old) (W.contents writer.new) (take n bytes.now)) }
    ensures fails { IfErr result (λ f. (f ≡ fault.Stream)
        × Appends (W.contents writer.old) (W.contents writer.new) []) }
{
    match writer.write(bytes) {
        Ok(0) => Err(Fault::Stream),
        Ok(n) => Ok(n),
        Err(e) => {
            if e.kind() == ErrorKind::Interrupted {
                Ok(0)
            } else {
                Err(Fault::Stream)
            }
        }
    }
}

/// Writes all of the bytes. Stream: the writer failed, and a front of them was written.
pub(crate) fn put<W: Write>(writer: &mut W, bytes: &[u8]) -> Result<(), Fault>
    ensures all { OnOk result (Appends (W.contents writer.old) (W.contents writer.new) bytes.now) }
    ensures part { Puts bytes.now (W.contents writer.old) (W.contents writer.new) }
    ensures fails { IfErr result (λ f. f ≡ fault.Stream) }
{
    let mut rest = bytes;
    for _ in 0..u64::MAX {
        if rest.is_empty() {
            return Ok(());
        }
        let n = put_some(writer, rest)?;
        let (_, after) = rest.split_at(n);
        rest = after;
    }
    Err(Fault::Stream)
}

/// Hands on what the writer may have kept back.
#[tactic(auto, using(crate::proofs::Putting::appends_kept))]
pub(crate) fn flush<W: Write>(writer: &mut W) -> Result<(), Fault>
    ensures same { Appends (W.contents writer.old) (W.contents writer.new) [] }
    ensures fails { IfErr result (λ f. f ≡ fault.Stream) }
{
    match writer.flush() {
        Ok(()) => Ok(()),
        Err(_) => Err(Fault::Stream),
    }
}

/// Writes all of the bytes, and hands them on. Stream: the writer failed, and a front of them was
/// written.
#[tactic(auto, using(crate::proofs::Putting::appends_more, crate::proofs::Putting::puts_flushed))]
pub(crate) fn put_all<W: Write>(writer: &mut W, bytes: &[u8]) -> Result<(), Fault>
    ensures all { OnOk result (Appends (W.contents writer.old) (W.contents writer.new) bytes.now) }
    ensures part { Puts bytes.now (W.contents writer.old) (W.contents writer.new) }
    ensures fails { IfErr result (λ f. f ≡ fault.Stream) }
{
    put(writer, bytes)?;
    flush(writer)?;
    Ok(())
}
