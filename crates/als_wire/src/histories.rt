ghost use Rattle.std.specs.Prelude.{◌≡◌, ◌+◌, ◌*◌, ◌≤◌, length, IfOk, IfErr, OnOk};
ghost use Rattle.std.specs.Io.KnownBytes.{Consumes, Appends};
ghost use Rattle.als_epochs.specs.Histories.{IsHistory, seals_bytes};
ghost use Rattle.als_wire.specs.declared.fault.Fault.TheVariants as fault;
ghost use Rattle.als_wire.specs.Frames.{history_bytes};
ghost use Rattle.als_wire.specs.Reading.{FailsToRecall, AreNoSeals};
ghost use Rattle.als_wire.specs.Sending.{Puts, StandsIn};

use crate::fault::Fault;
use crate::numbers::read_word;
use crate::sending::put_all;
use als_epochs::{EPOCH_LIMIT, History};
use byteorder::{BigEndian, ByteOrder};
use std::io::{Read, Write};

/// The history of so many seals, of which these are the bytes.
///
/// BadFrame: a seal is below the one before it.
fn recall(epoch: u32, bytes: &[u8]) -> Result<History, Fault>
    requires { length bytes.now ≡ 8 * epoch }
    ensures found { IfOk result (λ h. IsHistory h × (length h ≡ epoch)
        × (bytes.now ≡ seals_bytes h)) }
    ensures fails { IfErr result (λ f. (f ≡ fault.BadFrame) × AreNoSeals epoch bytes.now) }
{
    match History::decode(epoch, bytes) {
        Some(history) => Ok(history),
        None => Err(Fault::BadFrame),
    }
}

/// Reads a history: its epoch, and its seals. It takes no memory.
///
/// BadFrame: the epoch is above 32, or a seal is below the one before it.
#[tactic(auto, using(crate::proofs::Recalling::history_read, crate::proofs::Recalling::epoch_refused, crate::proofs::Recalling::seals_refused))]
pub(crate) fn read_history<R: Read>(reader: &mut R) -> Result<History, Fault>
    ensures found { IfOk result (λ h. IsHistory h
        × Consumes (R.remaining reader.old) (R.remaining reader.new) (history_bytes h)) }
    ensures fails { IfErr result (λ f. FailsToRecall f (R.remaining reader.old)
        (R.remaining reader.new)) }
{
    let epoch = read_word(reader)?;
    if epoch > EPOCH_LIMIT {
        return Err(Fault::BadFrame);
    }
    let mut room = [0u8; 256];
    let (bytes, _) = room.split_at_mut(8 * epoch as usize);
    reader.read_exact(bytes)?;
    let history = recall(epoch, bytes)?;
    Ok(history)
}

/// Writes a history at the front of a buffer.
fn fill(room: &mut [u8], history: &History)
    requires { 4 + 8 * length history.now ≤ length room.old }
    ensures { StandsIn (history_bytes history.now) room.new }
{
    BigEndian::write_u32(room, history.epoch());
    let (_, seals) = room.split_at_mut(4);
    history.encode(seals);
}

/// Writes a history, and hands it on. Stream: the writer failed, and a front of it was written.
pub(crate) fn put_history<W: Write>(writer: &mut W, history: &History) -> Result<(), Fault>
    ensures all { OnOk result (Appends (W.contents writer.old) (W.contents writer.new)
        (history_bytes history.now)) }
    ensures part { Puts (history_bytes history.now) (W.contents writer.old)
        (W.contents writer.new) }
    ensures fails { IfErr result (λ f. f ≡ fault.Stream) }
{
    let mut room = [0u8; 260];
    let epoch = history.epoch() as usize;
    fill(&mut room, history);
    let (bytes, _) = room.split_at(4 + 8 * epoch);
    put_all(writer, bytes)?;
    Ok(())
}
