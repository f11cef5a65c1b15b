ghost use Rattle.std.specs.Prelude.{◌≡◌, ◌≤◌, length, IfErr, OnOk};
ghost use Rattle.std.specs.Io.KnownBytes.{Appends};
ghost use Rattle.als_wire.specs.declared.fault.Fault.TheVariants as fault;
ghost use Rattle.als_wire.specs.Frames.{head_bytes, data_bytes, resume_head, resume_front};
ghost use Rattle.als_wire.specs.Frames.{resume_bytes, epochs_bytes, acknowledged_bytes, frame_bytes, IsFrame};
ghost use Rattle.als_wire.specs.Sending.{Puts};

use crate::fault::Fault;
use crate::frame::Frame;
use crate::histories::put_history;
use crate::sending::{put, put_all};
use als_epochs::History;
use als_record::{LogHeader, Lsn};
use byteorder::{BigEndian, ByteOrder};
use std::io::Write;

impl Frame {
    /// Writes the frame's bytes, and hands them on. Stream: the writer failed, and a front of them
    /// was written.
    pub fn write<W: Write>(&self, writer: &mut W) -> Result<(), Fault>
        requires { IsFrame self.now }
        ensures all { OnOk result (Appends (W.contents writer.old) (W.contents writer.new)
            (frame_bytes self.now)) }
        ensures part { Puts (frame_bytes self.now) (W.contents writer.old) (W.contents writer.new) }
        ensures fails { IfErr result (λ f. f ≡ fault.Stream) }
    {
        match self {
            Frame::Data {
                epoch,
                offset,
                bytes,
            } => write_data(writer, *epoch, *offset, bytes.as_slice()),
            Frame::Acknowledged(lsn) => write_acknowledged(writer, *lsn),
            Frame::Resume {
                from,
                header,
                history,
            } => write_resume(writer, *from, *header, history),
            Frame::Epochs(history) => write_epochs(writer, history),
        }
    }
}

/// What stands in front of the bytes of a Data frame.
#[tactic(auto, unfolding(crate::specs::Frames::head_bytes))]
fn head(epoch: u32, offset: u64, len: u32) -> [u8; 17]
    ensures { result ≡ head_bytes epoch offset len }
{
    let mut head = *b"F\0\0\0\0\0\0\0\0\0\0\0\0\0\0\0\0";
    BigEndian::write_u32(&mut head[1..], epoch);
    BigEndian::write_u64(&mut head[5..], offset);
    BigEndian::write_u32(&mut head[13..], len);
    head
}

/// Writes a Data frame.
pub fn write_data<W: Write>(
    writer: &mut W,
    epoch: u32,
    offset: u64,
    bytes: &[u8],
) -> Result<(), Fault>
    requires { length bytes.now ≤ 65536 }
    ensures all { OnOk result (Appends (W.contents writer.old) (W.contents writer.new)
        (data_bytes epoch offset bytes.now)) }
    ensures part { Puts (data_bytes epoch offset bytes.now) (W.contents writer.old)
        (W.contents writer.new) }
    ensures fails { IfErr result (λ f. f ≡ fault.Stream) }
{
    put(writer, &head(epoch, offset, bytes.len() as u32))?;
    put_all(writer, bytes)?;
    Ok(())
}

/// An Acknowledged frame.
fn acknowledged(lsn: u64) -> [u8; 9]
    ensures { result ≡ acknowledged_bytes lsn }
{
    let mut bytes = *b"A\0\0\0\0\0\0\0\0";
    BigEndian::write_u64(&mut bytes[1..], lsn);
    bytes
}

/// Writes an Acknowledged frame.
pub fn write_acknowledged<W: Write>(writer: &mut W, lsn: Lsn) -> Result<(), Fault>
    ensures all { OnOk result (Appends (W.contents writer.old) (W.contents writer.new)
        (acknowledged_bytes lsn.0)) }
    ensures part { Puts (acknowledged_bytes lsn.0) (W.contents writer.old) (W.contents writer.new) }
    ensures fails { IfErr result (λ f. f ≡ fault.Stream) }
{
    put_all(writer, &acknowledged(lsn.0))
}

/// What stands in front of the header of a Resume frame.
fn resume(from: u64) -> [u8; 9]
    ensures { result ≡ resume_head from }
{
    let mut bytes = *b"Q\0\0\0\0\0\0\0\0";
    BigEndian::write_u64(&mut bytes[1..], from);
    bytes
}

/// Writes what stands in front of the history of a Resume frame.
fn put_front<W: Write>(writer: &mut W, from: Lsn, header: LogHeader) -> Result<(), Fault>
    ensures all { OnOk result (Appends (W.contents writer.old) (W.contents writer.new)
        (resume_front from.0 header.pages)) }
    ensures part { Puts (resume_front from.0 header.pages) (W.contents writer.old)
        (W.contents writer.new) }
    ensures fails { IfErr result (λ f. f ≡ fault.Stream) }
{
    put(writer, &resume(from.0))?;
    put(writer, &header.encode())?;
    Ok(())
}

/// Writes a Resume frame.
#[tactic(auto, using(crate::proofs::Putting::puts_first, crate::proofs::Putting::puts_both, crate::proofs::Putting::appends_both))]
pub fn write_resume<W: Write>(
    writer: &mut W,
    from: Lsn,
    header: LogHeader,
    history: &History,
) -> Result<(), Fault>
    ensures all { OnOk result (Appends (W.contents writer.old) (W.contents writer.new)
        (resume_bytes from.0 header.pages history.now)) }
    ensures part { Puts (resume_bytes from.0 header.pages history.now) (W.contents writer.old)
        (W.contents writer.new) }
    ensures fails { IfErr result (λ f. f ≡ fault.Stream) }
{
    put_front(writer, from, header)?;
    put_history(writer, history)?;
    Ok(())
}

/// Writes an Epochs frame.
#[tactic(auto, using(crate::proofs::Putting::puts_first, crate::proofs::Putting::puts_both, crate::proofs::Putting::appends_both))]
pub fn write_epochs<W: Write>(writer: &mut W, history: &History) -> Result<(), Fault>
    ensures all { OnOk result (Appends (W.contents writer.old) (W.contents writer.new)
        (epochs_bytes history.now)) }
    ensures part { Puts (epochs_bytes history.now) (W.contents writer.old)
        (W.contents writer.new) }
    ensures fails { IfErr result (λ f. f ≡ fault.Stream) }
{
    put(writer, &[b'E'])?;
    put_history(writer, history)?;
    Ok(())
}
