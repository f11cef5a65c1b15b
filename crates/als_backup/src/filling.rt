ghost use Rattle.std.specs.Prelude.{◌≡◌, ◌≤◌, ◌+◌, ◌<◌, ℕ, List, length, OnOk};
ghost use Rattle.std.specs.Io.KnownBytes.{Consumes};
ghost use Rattle.als_record.specs.LogText.{end_of};
ghost use Rattle.als_operate.specs.Upkeep.{IsSettled};
ghost use Rattle.als_backup.specs.Filled.{Fills, KeepsFrontOf};

use crate::fault::Fault;
use als_engine::Events;
use als_epochs::History;
use als_lookback::Fault as LookFault;
use als_operate::{Fault as NodeFault, settle};
use als_record::{FIRST_LSN, LogHeader};
use als_ship::{Follower, Upkeep, force};
use als_wire::Frame;
use bytes::Bytes;
use std::alloc::Global;
use std::io::Read;
use std::vec::Vec;

/// How many bytes are taken in at once.
const PIECE: u64 = 65_536;

/// Takes in a log text up to an end, as the log of a new node with these takeovers before it, and puts all
/// of it on the devices.
///
/// Look: the reader failed, or has fewer bytes. Node: the node refused an event; LogFull: its log has no room.
pub fn fill<E: Events, U: Upkeep, R: Read>(
    alloc: Global,
    events: &mut E,
    upkeep: &mut U,
    history: History,
    end: u64,
    reader: &mut R,
) -> Result<(), Fault>
    // Then the log of a node that held a front of it is that text, and all of it is on the devices.
    ensures fills { OnOk result ((text : List ℕ) × Consumes (R.remaining reader.old)
        (R.remaining reader.new) text × (E.alone
        → Fills history text (E.machine events.old) (E.machine events.new))) }
    ensures settled { OnOk result (E.alone → IsSettled (E.machine events.new)) }
{
    if end < FIRST_LSN.0 {
        return Err(Fault::Look(LookFault::InHeader));
    }
    let follower = Follower::new(LogHeader {
        pages: events.pages(),
    });
    let epoch = history.epoch();
    let _ = follower.frame(events, Frame::Epochs(history))?;
    let mut front = [0_u8; 16];
    reader.read_exact(&mut front)?;
    feed_all(alloc, events, &follower, upkeep, epoch, end, reader)?;
    settle(events)?;
    check_end(events, end)?;
    Ok(())
}

/// Takes in what stands behind the header.
fn feed_all<E: Events, U: Upkeep, R: Read>(
    alloc: Global,
    events: &mut E,
    follower: &Follower,
    upkeep: &mut U,
    epoch: u32,
    end: u64,
    reader: &mut R,
) -> Result<(), Fault>
    requires some { 16 ≤ end }
    ensures keeps { OnOk result ((text : List ℕ) × (length text + 16 ≡ end)
        × Consumes (R.remaining reader.old) (R.remaining reader.new) text
        × (E.alone → KeepsFrontOf epoch 16 text (E.machine events.old) (E.machine events.new))) }
{
    let mut buf = Vec::new(alloc);
    buf.resize(PIECE as usize, 0_u8)?;
    let room = buf.as_mut_slice();
    let mut at = FIRST_LSN.0;
    while at < end {
        let len = (end - at).min(PIECE);
        feed_next(
            alloc,
            events,
            follower,
            upkeep,
            epoch,
            at,
            reader,
            &mut room[..len as usize],
        )?;
        at += len;
    }
    Ok(())
}

/// Reads as many bytes as there is room for, and takes them in.
fn feed_next<E: Events, U: Upkeep, R: Read>(
    alloc: Global,
    events: &mut E,
    follower: &Follower,
    upkeep: &mut U,
    epoch: u32,
    at: u64,
    reader: &mut R,
    piece: &mut [u8],
) -> Result<(), Fault>
    ensures size { length piece.new ≡ length piece.old }
    ensures keeps { OnOk result (Consumes (R.remaining reader.old) (R.remaining reader.new) piece.new
        × (E.alone → KeepsFrontOf epoch at piece.new (E.machine events.old) (E.machine events.new))) }
{
    reader.read_exact(piece)?;
    feed(alloc, events, follower, upkeep, epoch, at, piece)?;
    Ok(())
}

/// Takes in one piece, and does the upkeep.
fn feed<E: Events, U: Upkeep>(
    alloc: Global,
    events: &mut E,
    follower: &Follower,
    upkeep: &mut U,
    epoch: u32,
    at: u64,
    piece: &[u8],
) -> Result<(), Fault>
    ensures keeps { OnOk result (E.alone
        → KeepsFrontOf epoch at piece.now (E.machine events.old) (E.machine events.new)) }
{
    let bytes = Bytes::copy_from_slice(alloc, piece)?;
    let frame = Frame::Data {
        epoch,
        offset: at,
        bytes,
    };
    let _ = follower.frame(events, frame)?;
    let _ = force(events)?;
    match upkeep.keep_up(events) {
        Ok(()) => Ok(()),
        Err(fault) => Err(Fault::Node(NodeFault::Refused(fault))),
    }
}

/// That the log of a node ends there.
fn check_end<E: Events>(events: &E, end: u64) -> Result<(), Fault>
    ensures { OnOk result (E.alone → end_of (E.machine events.now).held.log ≡ end) }
{
    if events.status().end.0 == end {
        Ok(())
    } else {
        Err(Fault::Look(LookFault::Stream))
    }
}
