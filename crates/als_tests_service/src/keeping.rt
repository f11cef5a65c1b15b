use crate::scripted::{End, Scripted, Told};
use als_disk::MemDisk;
use als_engine::{CONTROL_BLOCKS, Config, Disks, Engine, Events, Fault as EngineFault};
use als_fault::FaultKind;
use als_operate::Fault;
use als_report::{Board, Report, Reports, State, Watch};
use als_sample_logs::{FIRST, Primary};
use als_service::{Kept, Pace, follow_sessions};
use als_share::Counts;
use als_ship::Fault as SessionFault;
use std::alloc::Global;
use std::process::Abort;
use std::sync::{Arc, Wait};
use std::test::*;
use std::thread::Threads;
use std::time::Clock;

/// Pages of the database.
const PAGES: u32 = 16;

/// The log bytes of a frame.
const FRAME: usize = 8192;

/// The log has at least this many bytes.
const LENGTH: usize = 6 * FRAME;

/// The first stream ends within the third frame. A frame has 17 bytes before those of the log, and the history 5.
const CUT: usize = 5 + 2 * (17 + FRAME) + 1000;

/// With two workers, and a checkpoint after each frame.
const PACE: Pace = Pace {
    workers: 2,
    each: FRAME as u64,
};

/// The history of a primary that took over where a log of no record ends: a log that goes on from there has parted from it.
const PARTED: &[u8] = b"E\0\0\0\x01\0\0\0\0\0\0\0\x10";

/// The history of a primary before which there was no takeover.
const FIRST_PRIMARY: &[u8] = b"E\0\0\0\0";

const CONFIG: Config = Config {
    pages: PAGES as u64,
    frames: PAGES as u64,
    pending: 100_000,
    readers: 1,
};

/// Devices in memory, with nothing in them.
fn disks(alloc: Global) -> Disks<MemDisk> {
    Disks {
        log: MemDisk::new(alloc, 1024),
        control: MemDisk::new(alloc, CONTROL_BLOCKS),
        pages: MemDisk::new(alloc, u64::from(PAGES)),
    }
}

/// A standby over new devices. `None`: allocation failed.
fn standby<R: Wait>(rt: &R, alloc: Global) -> Option<Engine<MemDisk>> {
    let (engine, readers) = Engine::format(alloc, rt, disks(alloc), CONFIG).ok()?;
    drop(readers);
    Some(engine)
}

/// The frames of a log, and where it ends.
#[derive(Drop)]
struct Sent {
    frames: Vec<u8>,
    end: u64,
}

/// What a primary sends of its log. `None`: allocation failed.
fn sent_by_a_primary(alloc: Global) -> Option<Sent> {
    let primary = Primary::new(alloc, PAGES, LENGTH, PAGES).ok()?;
    let text = primary.write(LENGTH).ok()?;
    let frames = als_sample_logs::frames(alloc, text.as_slice(), FIRST, FRAME).ok()?;
    let end = text.len() as u64;
    Some(Sent { frames, end })
}

/// A connection that sends these bytes. `None`: allocation failed.
fn sends(alloc: Global, bytes: &[u8]) -> Option<(End, End)> {
    let mut sent = Vec::new(alloc);
    sent.extend_from_slice(bytes).ok()?;
    let reader = End::new(sent, Vec::new(alloc));
    let writer = End::new(Vec::new(alloc), Vec::new(alloc));
    Some((reader, writer))
}

/// Connections: one that is cut, none, one that goes to the end of the log, and one to a primary whose
/// log parted from it. The last one first. `None`: allocation failed.
fn connections(alloc: Global, sent: &[u8]) -> Option<Scripted<End>> {
    let mut ready = Vec::new(alloc);
    ready.push(Some(sends(alloc, PARTED)?)).ok()?;
    ready.push(Some(sends(alloc, sent)?)).ok()?;
    ready.push(None).ok()?;
    ready.push(Some(sends(alloc, sent.get(..CUT)?)?)).ok()?;
    Some(Scripted::new(ready))
}

/// Connections: one within which a record is refused, one that goes to the end of the log, and one to a
/// primary whose log parted from it. The last one first. `None`: allocation failed.
fn refusals(alloc: Global, sent: &[u8]) -> Option<Scripted<End>> {
    let mut altered = Vec::new(alloc);
    altered.extend_from_slice(sent).ok()?;
    // The type of the first record, behind the history and the head of the first frame.
    *altered.as_mut_slice().get_mut(5 + 17 + 4)? = 9;
    let reader = End::new(altered, Vec::new(alloc));
    let writer = End::new(Vec::new(alloc), Vec::new(alloc));
    let mut ready = Vec::new(alloc);
    ready.push(Some(sends(alloc, PARTED)?)).ok()?;
    ready.push(Some(sends(alloc, sent)?)).ok()?;
    ready.push(Some((reader, writer))).ok()?;
    Some(Scripted::new(ready))
}

/// Three connections over which nothing comes, one to a primary that took over, and one to the primary
/// before it. The last one first. `None`: allocation failed.
fn hang_ups(alloc: Global) -> Option<Scripted<End>> {
    let mut ready = Vec::new(alloc);
    ready.push(Some(sends(alloc, FIRST_PRIMARY)?)).ok()?;
    ready.push(Some(sends(alloc, PARTED)?)).ok()?;
    ready.push(Some(sends(alloc, b"")?)).ok()?;
    ready.push(Some(sends(alloc, b"")?)).ok()?;
    ready.push(Some(sends(alloc, b"")?)).ok()?;
    Some(Scripted::new(ready))
}

/// Whether a log with this end is held, acknowledged, redone and written.
fn holds<E: Events>(events: &E, end: u64) -> bool {
    let status = events.status();
    status.end.0 == end
        && status.acknowledged.0 == end
        && status.pending == 0
        && events.dirty(0).is_none()
}

/// Whether frames came that were acknowledged, and the last session, which was refused, changed no
/// state.
fn is_heard(report: Report) -> bool {
    report.state == State::Waiting && report.silence.is_some()
}

/// Follows connections of which some are lost. `None`: it ended otherwise, as where allocation fails.
fn goes_on<E: Counts + Send + Drop, R: Threads + Wait + Sync + Clock + Clone + Drop + Abort>(
    rt: &R,
    alloc: Global,
    engine: E,
) -> Option<()> {
    let sent = sent_by_a_primary(alloc)?;
    let mut primaries = connections(alloc, sent.frames.as_slice())?;
    let board = Arc::new(alloc, Board::new()).ok()?;
    let watch = Watch::new(Arc::try_clone(&board).ok()?, rt.clone().ok()?);
    let mut told = Told::nothing();
    let Kept { events, ended } = follow_sessions(
        rt,
        alloc,
        engine,
        PACE,
        &mut primaries,
        &board,
        &mut told,
    );
    if ended.kind() != (FaultKind::Diverged { seal: 16 }) {
        return None;
    }
    assert!(rt; holds(&events, sent.end));
    assert!(rt; told.last == Some((Some(Fault::Stream), 100)));
    assert!(rt; is_heard(watch.report()));
    Some(())
}

/// Has a record refused, and asks for it again. `None`: it ended otherwise, as where allocation fails.
fn asks_again<E: Counts + Send + Drop, R: Threads + Wait + Sync + Clock + Clone + Drop + Abort>(
    rt: &R,
    alloc: Global,
    engine: E,
) -> Option<()> {
    let sent = sent_by_a_primary(alloc)?;
    let mut primaries = refusals(alloc, sent.frames.as_slice())?;
    let board = Board::new();
    let mut told = Told::nothing();
    let Kept { events, ended } = follow_sessions(
        rt,
        alloc,
        engine,
        PACE,
        &mut primaries,
        &board,
        &mut told,
    );
    if ended.kind() != (FaultKind::Diverged { seal: 16 }) {
        return None;
    }
    assert!(rt; holds(&events, sent.end));
    let refused = Fault::Session(SessionFault::Refused(EngineFault::BadType));
    assert!(rt; told.refusal == Some((refused, 5000)));
    Some(())
}

/// Is hung up on with an empty database, and goes on. `None`: it ended otherwise, as where allocation
/// fails.
fn is_turned_away<E: Counts + Send + Drop, R: Threads + Wait + Sync + Clock + Clone + Drop + Abort>(
    rt: &R,
    alloc: Global,
    engine: E,
) -> Option<()> {
    let mut primaries = hang_ups(alloc)?;
    let board = Board::new();
    let mut told = Told::nothing();
    let Kept { events, ended } = follow_sessions(
        rt,
        alloc,
        engine,
        PACE,
        &mut primaries,
        &board,
        &mut told,
    );
    drop(events);
    if ended.kind() != (FaultKind::OtherEpoch { epoch: 0 }) {
        return None;
    }
    assert!(rt; told.hang_ups == Some(3));
    assert!(rt; told.refusal.is_none());
    Some(())
}

/// Follows such connections over devices in memory.
fn goes_on_in_memory<R: Threads + Wait + Sync + Clock + Clone + Drop + Abort>(
    rt: &R,
    alloc: Global,
) -> Option<()> {
    goes_on(rt, alloc, standby(rt, alloc)?)
}

#[test]
fn a_lost_connection_is_followed_by_the_next(rt: HostRuntime) {
    let alloc = rt.alloc();
    assert!(rt; goes_on_in_memory(&rt, alloc).is_some() || goes_on_in_memory(&rt, alloc).is_some());
}

/// Is hung up on with an empty database in memory.
fn is_turned_away_in_memory<R: Threads + Wait + Sync + Clock + Clone + Drop + Abort>(
    rt: &R,
    alloc: Global,
) -> Option<()> {
    is_turned_away(rt, alloc, standby(rt, alloc)?)
}

#[test]
fn a_primary_that_hangs_up_does_not_end_it(rt: HostRuntime) {
    let alloc = rt.alloc();
    assert!(rt;
        is_turned_away_in_memory(&rt, alloc).is_some()
            || is_turned_away_in_memory(&rt, alloc).is_some()
    );
}

/// Has a record refused over devices in memory.
fn asks_again_in_memory<R: Threads + Wait + Sync + Clock + Clone + Drop + Abort>(
    rt: &R,
    alloc: Global,
) -> Option<()> {
    asks_again(rt, alloc, standby(rt, alloc)?)
}

#[test]
fn a_refused_record_is_asked_for_again(rt: HostRuntime) {
    let alloc = rt.alloc();
    assert!(rt;
        asks_again_in_memory(&rt, alloc).is_some() || asks_again_in_memory(&rt, alloc).is_some()
    );
}
