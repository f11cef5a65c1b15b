ghost use Rattle.std.specs.Prelude.{◌≡◌, true, ◌≤◌, ◌++◌, length, OnOk, IfOk, IfErr, MatchBool};
ghost use Rattle.std.specs.Result.{IsErrOf};
ghost use Rattle.als_engine.specs.declared.fault.Fault.TheVariants as fault;
ghost use Rattle.als_engine.specs.Serving.{HasRoomForBytes};
ghost use Rattle.als_engine.specs.Feeds.{IsCause};
ghost use Rattle.als_store.specs.Takeover.{is_following};
ghost use Rattle.als_engine.specs.Readers.{ViewGoesOn};
ghost use Rattle.als_engine.specs.TakingIn.{Meets, Rests, TakesOne, TakesAll, TakesFront};

use crate::fault::Fault;
use crate::holding::hold;
use als_disk::BlockDisk;
use als_receiver::Receiver;
use als_store::Store;
use als_view::View;
use std::alloc::Global;

/// How many bytes of a piece go to the receiver at once.
const CHUNK: usize = 65_536;

/// How many records are looked ahead at, in one go.
const AHEAD: u32 = 32;

/// With fewer bytes there is little to look ahead at.
const AHEAD_BYTES: usize = 512;

/// Gives a piece to the receiver, and each record that is whole then to the store.
pub(crate) fn take_piece<D: BlockDisk>(
    alloc: Global,
    held: &mut Store<D>,
    receiver: &mut Receiver,
    shown: &mut View,
    piece: &[u8],
) -> Result<(), Fault>
    requires rests { Rests held.old.stored receiver.old }
    requires following { is_following held.old.stored ≡ true }
    ensures ok { OnOk result (TakesAll held.old.stored (receiver.old.kept ++ piece.now)
        held.new.stored receiver.new) }
    ensures err { IfErr result (TakesFront held.old.stored (receiver.old.kept ++ piece.now)
        held.new.stored) }
    // The view of the log goes on with it.
    ensures goes_on { ViewGoesOn held.old.stored.log shown.old held.new.stored.log shown.new }
    ensures reserved { length piece.now ≤ 65536 → length piece.now ≤ receiver.old.room
        → HasRoomForBytes held.old.stored held.old.spare (receiver.old.kept ++ piece.now)
        → IsErrOf result fault.Memory → ⊥ }
{
    if piece.len() <= CHUNK {
        return take_chunk(alloc, held, receiver, shown, piece);
    }
    let mut rest = piece;
    while !rest.is_empty() {
        let (chunk, after) = rest.split_at(rest.len().min(CHUNK));
        take_chunk(alloc, held, receiver, shown, chunk)?;
        rest = after;
    }
    Ok(())
}

/// The same for a chunk of at most 65,536 bytes.
fn take_chunk<D: BlockDisk>(
    alloc: Global,
    held: &mut Store<D>,
    receiver: &mut Receiver,
    shown: &mut View,
    chunk: &[u8],
) -> Result<(), Fault>
    requires rests { Rests held.old.stored receiver.old }
    requires few { length chunk.now ≤ 65536 }
    requires following { is_following held.old.stored ≡ true }
    ensures ok { OnOk result (TakesAll held.old.stored (receiver.old.kept ++ chunk.now)
        held.new.stored receiver.new) }
    ensures err { IfErr result (TakesFront held.old.stored (receiver.old.kept ++ chunk.now)
        held.new.stored) }
    // The view of the log goes on with it.
    ensures goes_on { ViewGoesOn held.old.stored.log shown.old held.new.stored.log shown.new }
    ensures reserved { length chunk.now ≤ receiver.old.room
        → HasRoomForBytes held.old.stored held.old.spare (receiver.old.kept ++ chunk.now)
        → IsErrOf result fault.Memory → ⊥ }
{
    // For the prover alone: what always holds of the store.
    let _ = held.end();
    receiver.push(chunk)?;
    take_records(alloc, held, receiver, shown)
}

/// Gives each record that is whole to the store.
fn take_records<D: BlockDisk>(
    alloc: Global,
    held: &mut Store<D>,
    receiver: &mut Receiver,
    shown: &mut View,
) -> Result<(), Fault>
    requires meets { Meets held.old.stored receiver.old }
    requires following { is_following held.old.stored ≡ true }
    ensures ok { OnOk result (TakesAll held.old.stored receiver.old.kept held.new.stored
        receiver.new) }
    ensures err { IfErr result (TakesFront held.old.stored receiver.old.kept held.new.stored) }
    // The view of the log goes on with it.
    ensures goes_on { ViewGoesOn held.old.stored.log shown.old held.new.stored.log shown.new }
    ensures reserved { HasRoomForBytes held.old.stored held.old.spare receiver.old.kept
        → IsErrOf result fault.Memory → ⊥ }
{
    let mut ahead = 0;
    while take_next(alloc, held, receiver, shown, &mut ahead)? {}
    Ok(())
}

/// Gives the next record to the store, if it is whole; says whether it was. Where no more records
/// were looked ahead at, the next ones are first.
#[inline(always)]
fn take_next<D: BlockDisk>(
    alloc: Global,
    held: &mut Store<D>,
    receiver: &mut Receiver,
    shown: &mut View,
    ahead: &mut u32,
) -> Result<bool, Fault>
    requires meets { Meets held.old.stored receiver.old }
    requires following { is_following held.old.stored ≡ true }
    ensures ok { IfOk result (λ more. MatchBool more
        (TakesOne held.old.stored receiver.old held.new.stored receiver.new)
        ((held.new.stored ≡ held.old.stored) × (receiver.new ≡ receiver.old)
        × Rests held.old.stored receiver.old)) }
    ensures err { IfErr result (λ fault. (held.new.stored ≡ held.old.stored)
        × IsCause held.old.stored receiver.old.kept fault) }
    // The view of the log goes on with it.
    ensures goes_on { ViewGoesOn held.old.stored.log shown.old held.new.stored.log shown.new }
    ensures reserved { HasRoomForBytes held.old.stored held.old.spare receiver.old.kept
        → IsErrOf result fault.Memory → ⊥ }
{
    if *ahead == 0 {
        look_ahead(held, receiver);
        *ahead = AHEAD;
    }
    *ahead -= 1;
    take_record(alloc, held, receiver, shown)
}

/// Reads what is kept of the keys of the next records, so that it is at hand when they are judged.
fn look_ahead<D: BlockDisk>(held: &mut Store<D>, receiver: &Receiver)
    ensures same { held.new.stored ≡ held.old.stored }
    ensures room { HasRoomForBytes held.old.stored held.old.spare receiver.now.kept
        → HasRoomForBytes held.new.stored held.new.spare receiver.now.kept }
{
    let kept = receiver.partial();
    if kept >= AHEAD_BYTES {
        let _ = held.look_ahead(receiver.front(kept));
    }
}

/// Gives the next record to the store, if it is whole; says whether it was.
fn take_record<D: BlockDisk>(
    alloc: Global,
    held: &mut Store<D>,
    receiver: &mut Receiver,
    shown: &mut View,
) -> Result<bool, Fault>
    requires meets { Meets held.old.stored receiver.old }
    requires following { is_following held.old.stored ≡ true }
    ensures ok { IfOk result (λ more. MatchBool more
        (TakesOne held.old.stored receiver.old held.new.stored receiver.new)
        ((held.new.stored ≡ held.old.stored) × (receiver.new ≡ receiver.old)
        × Rests held.old.stored receiver.old)) }
    ensures err { IfErr result (λ fault. (held.new.stored ≡ held.old.stored)
        × IsCause held.old.stored receiver.old.kept fault) }
    // The view of the log goes on with it.
    ensures goes_on { ViewGoesOn held.old.stored.log shown.old held.new.stored.log shown.new }
    ensures reserved { HasRoomForBytes held.old.stored held.old.spare receiver.old.kept
        → IsErrOf result fault.Memory → ⊥ }
{
    match receiver.peek() {
        Ok(Some((view, len))) => {
            hold(alloc, held, shown, &view, receiver.front(len))?;
            receiver.advance(len);
            Ok(true)
        }
        Ok(None) => Ok(false),
        Err(refusal) => Err(Fault::from(refusal.fault)),
    }
}
