use crate::standbys::{TEXT, standby};
use als_disk::BlockDisk;
use als_engine::{Engine, Fault, State};
use als_lease::PageLease;
use als_record::{LogHeader, Lsn};
use als_ship::Follower;
use std::alloc::Global;
use std::sync::{Mutex, Wait};
use std::test::Fail;
use std::thread;

/// The history of no seals, the Data frame of these bytes, and the last one, which has none.
const SENT: [u8; 131] = [
    69, 0, 0, 0, 0, 70, 0, 0, 0, 0, 0, 0, 0, 0, 0, 0, 0, 16, 0, 0, 0, 92, 0, 0, 0, 36, 1, 0, 0, 0,
    0, 0, 0, 0, 0, 0, 0, 16, 0, 0, 0, 0, 0, 0, 0, 0, 0, 0, 0, 1, 0, 0, 0, 0, 0, 255, 1, 170, 0, 0,
    0, 28, 3, 0, 0, 0, 0, 0, 0, 0, 0, 0, 0, 52, 0, 0, 0, 0, 0, 0, 0, 16, 0, 0, 0, 1, 0, 0, 0, 28,
    5, 0, 0, 0, 0, 0, 0, 0, 0, 0, 0, 80, 0, 0, 0, 0, 0, 0, 0, 52, 0, 0, 0, 1, 70, 0, 0, 0, 0, 0, 0,
    0, 0, 0, 0, 0, 108, 0, 0, 0, 0,
];

/// One thread takes the log in pieces of seven bytes, a turn of the lock for each, and acknowledges
/// it.
fn follow<D: BlockDisk, R: Wait>(rt: &R, shared: &Mutex<Engine<D>>) {
    for piece in TEXT.chunks(7) {
        let _ = shared.lock(rt).feed(piece);
    }
    let _ = shared.lock(rt).log_write();
    let _ = shared.lock(rt).log_sync();
    let _ = shared.lock(rt).mark_write();
    let _ = shared.lock(rt).ctl_sync();
}

/// Another one redoes what waits for page 0: it takes the lock to lend and to give, and none to
/// redo.
fn redo<D: BlockDisk, R: Wait>(rt: &R, shared: &Mutex<Engine<D>>) {
    for _ in 0..100 {
        let lent = shared.lock(rt).lend(0);
        if let Ok(lease) = lent {
            let _ = shared.lock(rt).give(redone(lease));
        }
    }
}

/// A lease with all its changes redone.
fn redone(lease: PageLease) -> PageLease {
    let mut lease = lease;
    // A lease has at most 64 changes.
    for _ in 0..64 {
        if !lease.redo_next() {
            break;
        }
    }
    lease
}

/// Whether the log is held and acknowledged, and its one change redone or waiting.
fn has_all<D: BlockDisk>(engine: &Engine<D>) -> bool {
    let status = engine.status();
    status.state == State::Following
        && status.end == Lsn(108)
        && status.acknowledged == Lsn(108)
        && status.pending <= 1
}

#[test]
fn two_threads_drive_one_engine(rt: HostRuntime) {
    let engine = standby(&rt, rt.alloc()).expect(&rt, "a standby");
    let shared = Mutex::new(engine);
    let (rt, lock) = (&rt, &shared);
    thread::join(rt, move || follow(rt, lock), move || redo(rt, lock));
    let mut engine = shared.into_inner();
    assert!(rt; has_all(&engine));
    match engine.lend(0) {
        Ok(lease) => assert!(rt; engine.give(redone(lease)).is_ok()),
        Err(fault) => assert!(rt; fault == Fault::NothingToDo),
    }
    assert!(rt; engine.status().pending == 0);
}

/// A session over memory. `None`: allocation failed.
fn session<D: BlockDisk>(alloc: Global, engine: &mut Engine<D>) -> Option<()> {
    let mut told = Vec::new(alloc);
    let mut reader = SENT.as_slice();
    Follower::new(LogHeader { pages: 4 })
        .follow(alloc, engine, &mut reader, &mut told)
        .ok()
}

#[test]
fn a_session_in_a_thread_of_its_own(rt: HostRuntime) -> Result<(), Fail> {
    let alloc = rt.alloc();
    let engine = standby(&rt, alloc).expect(&rt, "a standby");
    let child = thread::spawn(&rt, move || {
        let mut engine = engine;
        let _ = session(alloc, &mut engine);
        engine
    });
    let Ok(child) = child else {
        return Ok(());
    };
    let engine = child.join(&rt);
    assert!(rt; has_all(&engine));
    Ok(())
}
