ghost use Rattle.std.specs.Prelude.{◌≡◌, ◌≤◌, ◌⊎◌, ℕ, List, [], ◌∷◌, ◌++◌, length, IfOk, IfErr};
ghost use Rattle.std.specs.Prelude.{OnOk, MatchBool};
ghost use Rattle.std.specs.Int.{w32, w64, to_be_bytes};
ghost use Rattle.std.specs.Io.KnownBytes.{Consumes};
ghost use Rattle.als_record.specs.LogText.{header_bytes};
ghost use Rattle.als_wire.specs.declared.tag.Tag.TheVariants as tag;
ghost use Rattle.als_wire.specs.declared.fault.Fault.TheVariants as fault;
ghost use Rattle.als_wire.specs.Faults.{IsOfStream};
ghost use Rattle.als_wire.specs.Frames.{byte_of, tag_of, head_bytes, data_bytes, resume_bytes};
ghost use Rattle.als_wire.specs.Frames.{resume_front, epochs_bytes, IsHead};
ghost use Rattle.als_epochs.specs.Histories.{IsHistory};
ghost use Rattle.als_wire.specs.Frames.{acknowledged_bytes, frame_bytes, IsFrame};
ghost use Rattle.als_wire.specs.Reading.{FailsToRead, FailsToFill, IsHeader, IsNoHeader};

use crate::fault::Fault;
use crate::frame::{Frame, is_piece};
use crate::histories::read_history;
use crate::numbers::{read_long, read_word};
use crate::tag::Tag;
use als_epochs::{EPOCH_LIMIT, History};
use als_record::{LogHeader, Lsn};
use bytes::{Bytes, BytesMut};
use std::alloc::Global;
use std::io::Read;

impl Frame {
    /// Reads the next frame, which must have this tag.
    ///
    /// BadFrame: it has another tag, its history is none, or it is a Data frame of an epoch above 32,
    /// that is too long or ends past the greatest offset; none of its bytes are read then, and no
    /// room is made for them. BadHeader:
    /// the header of a Resume frame is none. Memory: there was no room for a Data frame's bytes.
    /// Cut: the stream ended before the frame did. Stream: the reader failed.
    pub fn read<R: Read>(alloc: Global, reader: &mut R, tag: Tag) -> Result<Frame, Fault>
        ensures found { IfOk result (λ frame. (tag_of frame ≡ tag) × IsFrame frame
            × Consumes (R.remaining reader.old) (R.remaining reader.new) (frame_bytes frame)) }
        ensures fails { IfErr result (λ f. FailsToRead tag f (R.remaining reader.old)
            (R.remaining reader.new)) }
    {
        match tag {
            Tag::Data => {
                let (epoch, offset, bytes) = read_data(alloc, reader)?;
                Ok(Frame::Data {
                    epoch,
                    offset,
                    bytes,
                })
            }
            Tag::Acknowledged => {
                let lsn = read_acknowledged(reader)?;
                Ok(Frame::Acknowledged(lsn))
            }
            Tag::Resume => {
                let (from, header, history) = read_resume(reader)?;
                Ok(Frame::Resume {
                    from,
                    header,
                    history,
                })
            }
            Tag::Epochs => {
                let history = read_epochs(reader)?;
                Ok(Frame::Epochs(history))
            }
        }
    }
}

/// Reads the byte that a frame begins with, which must be this one.
#[tactic(auto, using(crate::proofs::Failing::fails_of_stream, crate::proofs::Failing::tag_read, crate::proofs::Failing::tag_missed))]
fn read_tag<R: Read>(reader: &mut R, tag: Tag) -> Result<(), Fault>
    ensures found { OnOk result (Consumes (R.remaining reader.old) (R.remaining reader.new)
        (byte_of tag ∷ [])) }
    ensures fails { IfErr result (λ f. FailsToRead tag f (R.remaining reader.old)
        (R.remaining reader.new)) }
{
    let mut byte = [0u8; 1];
    reader.read_exact(&mut byte)?;
    if byte[0] == tag.byte() {
        Ok(())
    } else {
        Err(Fault::BadFrame)
    }
}

/// May a Data frame of this epoch with so many bytes at this offset come?
pub fn is_head(epoch: u32, offset: u64, len: usize) -> bool
    ensures { MatchBool result (IsHead epoch offset len) (IsHead epoch offset len → ⊥) }
{
    epoch <= EPOCH_LIMIT && is_piece(offset, len)
}

/// Reads what stands in front of the bytes of a Data frame: their epoch, where they stand, and how
/// many they are.
#[tactic(auto, using(crate::proofs::Failing::fails_of_stream, crate::proofs::Failing::head_read, crate::proofs::Failing::head_refused))]
fn read_head<R: Read>(reader: &mut R) -> Result<(u32, u64, usize), Fault>
    ensures found { IfOk result (λ p. IsHead p.0 p.1 p.2
        × Consumes (R.remaining reader.old) (R.remaining reader.new) (head_bytes p.0 p.1 p.2)) }
    ensures fails { IfErr result (λ f. FailsToRead tag.Data f (R.remaining reader.old)
        (R.remaining reader.new)) }
{
    read_tag(reader, Tag::Data)?;
    let epoch = read_word(reader)?;
    let offset = read_long(reader)?;
    let len = read_word(reader)? as usize;
    if is_head(epoch, offset, len) {
        Ok((epoch, offset, len))
    } else {
        Err(Fault::BadFrame)
    }
}

/// Reads so many bytes. It makes room for no more than a frame has.
fn read_bytes<R: Read>(alloc: Global, reader: &mut R, len: usize) -> Result<Bytes, Fault>
    requires { len ≤ 65536 }
    ensures found { IfOk result (λ bytes. (length bytes ≡ len)
        × Consumes (R.remaining reader.old) (R.remaining reader.new) bytes) }
    ensures fails { IfErr result (λ f. FailsToFill f (R.remaining reader.old)
        (R.remaining reader.new)) }
{
    let mut bytes = BytesMut::zeroed(alloc, len)?;
    reader.read_exact(bytes.as_mut_slice())?;
    let bytes = bytes.freeze()?;
    Ok(bytes)
}

/// Reads a Data frame: its epoch, where its bytes stand, and the bytes.
#[tactic(auto, using(crate::proofs::Failing::data_failed))]
pub fn read_data<R: Read>(alloc: Global, reader: &mut R) -> Result<(u32, u64, Bytes), Fault>
    ensures found { IfOk result (λ p. IsHead p.0 p.1 (length p.2)
        × Consumes (R.remaining reader.old) (R.remaining reader.new) (data_bytes p.0 p.1 p.2)) }
    ensures fails { IfErr result (λ f. FailsToRead tag.Data f (R.remaining reader.old)
        (R.remaining reader.new)) }
{
    let (epoch, offset, len) = read_head(reader)?;
    let bytes = read_bytes(alloc, reader, len)?;
    Ok((epoch, offset, bytes))
}

/// Reads an Acknowledged frame.
pub fn read_acknowledged<R: Read>(reader: &mut R) -> Result<Lsn, Fault>
    ensures found { IfOk result (λ lsn. Consumes (R.remaining reader.old) (R.remaining reader.new)
        (acknowledged_bytes lsn.0)) }
    ensures fails { IfErr result (λ f. FailsToRead tag.Acknowledged f (R.remaining reader.old)
        (R.remaining reader.new)) }
{
    read_tag(reader, Tag::Acknowledged)?;
    let lsn = read_long(reader)?;
    Ok(Lsn(lsn))
}

/// The header that sixteen bytes spell.
fn header_of(bytes: &[u8; 16]) -> Result<LogHeader, Fault>
    ensures found { IfOk result (λ header. IsHeader header
        × (bytes.now ≡ header_bytes header.pages)) }
    ensures fails { IfErr result (λ f. (f ≡ fault.BadHeader) × IsNoHeader bytes.now) }
{
    match LogHeader::decode(bytes) {
        Ok(Some(header)) => Ok(header),
        Ok(None) => Err(Fault::BadHeader),
        Err(_) => Err(Fault::BadHeader),
    }
}

/// Reads what stands in front of the history of a Resume frame.
#[tactic(auto, using(crate::proofs::Failing::fails_of_stream, crate::proofs::Failing::resume_read, crate::proofs::Failing::resume_refused))]
fn read_front<R: Read>(reader: &mut R) -> Result<(Lsn, LogHeader), Fault>
    ensures found { IfOk result (λ p. IsHeader p.1
        × Consumes (R.remaining reader.old) (R.remaining reader.new)
        (resume_front p.0.0 p.1.pages)) }
    ensures fails { IfErr result (λ f. FailsToRead tag.Resume f (R.remaining reader.old)
        (R.remaining reader.new)) }
{
    read_tag(reader, Tag::Resume)?;
    let from = read_long(reader)?;
    let mut bytes = [0u8; 16];
    reader.read_exact(&mut bytes)?;
    let header = header_of(&bytes)?;
    Ok((Lsn(from), header))
}

/// Reads a Resume frame: where the follower goes on, the header of its log, and its history.
#[tactic(auto, using(crate::proofs::Failing::resume_failed, crate::proofs::Failing::two_read))]
pub fn read_resume<R: Read>(reader: &mut R) -> Result<(Lsn, LogHeader, History), Fault>
    ensures found { IfOk result (λ p. IsHeader p.1 × IsHistory p.2
        × Consumes (R.remaining reader.old) (R.remaining reader.new)
        (resume_bytes p.0.0 p.1.pages p.2)) }
    ensures fails { IfErr result (λ f. FailsToRead tag.Resume f (R.remaining reader.old)
        (R.remaining reader.new)) }
{
    let (from, header) = read_front(reader)?;
    let history = read_history(reader)?;
    Ok((from, header, history))
}

/// Reads an Epochs frame: the history of the source.
#[tactic(auto, using(crate::proofs::Failing::epochs_failed, crate::proofs::Failing::epochs_read))]
pub fn read_epochs<R: Read>(reader: &mut R) -> Result<History, Fault>
    ensures found { IfOk result (λ h. IsHistory h
        × Consumes (R.remaining reader.old) (R.remaining reader.new) (epochs_bytes h)) }
    ensures fails { IfErr result (λ f. FailsToRead tag.Epochs f (R.remaining reader.old)
        (R.remaining reader.new)) }
{
    read_tag(reader, Tag::Epochs)?;
    let history = read_history(reader)?;
    Ok(history)
}
