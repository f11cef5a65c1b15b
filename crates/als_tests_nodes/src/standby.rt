use crate::ports::Unheard;
use als_drive::Progress;
use als_operate::{Following, Forgets, TakenOver, takeover};
use als_record::Lsn;
use als_service::{Service, standby};
use std::fs::File;
use std::net::{Net, TcpListener, TcpStream};
use std::random::RandomSource;
use std::rt::Files;
use std::sync::Wait;
use std::thread::Threads;
use std::time::Clock;

/// Nobody is told.
#[derive(Clone, Copy)]
struct Untold;

impl Progress for Untold {
    fn waits(&mut self, _changes: u64) {}
}

impl Forgets for Untold {
    fn forgot(&mut self, _seal: Lsn) {}
}

/// Follows one session as the standby of a folder, all in this thread. Its primary may be silent for so many seconds.
/// Whether the session came to its end.
pub fn follows<
    R: AllocGlobal
        + Files<File = File>
        + Net<Listener = TcpListener, Stream = TcpStream>
        + Threads
        + Wait
        + Sync
        + Clock
        + RandomSource
        + Clone
        + Send
        + Drop
        + 'static,
>(rt: &R, dir: &str, from: &str, timeout: u64) -> bool {
    let following = Following {
        dir,
        from,
        pages: 4,
        log_blocks: 256,
        checkpoint_mb: 0,
        timeout,
    };
    let service = Service {
        workers: 0,
        serve: None,
        readers: 1,
        keep: false,
        uncompared: false,
        listen: None,
        window: 1,
        followers: &[],
    };
    let mut printed = Vec::new(rt.alloc());
    let ended = standby(rt, following, service, &mut Unheard, &mut printed);
    ended.is_ok()
}

/// Takes a folder over. What it prints: where the log ends, and each record of the database. None: something
/// failed.
pub fn take_over<R: AllocGlobal + Files<File = File> + Wait>(rt: &R, dir: &str) -> Option<Vec<u8>> {
    let mut printed = Vec::new(rt.alloc());
    let TakenOver {
        doubts,
        is_empty: _,
    } = takeover(rt, dir, &mut Untold, &mut printed).ok()?;
    drop(doubts);
    Some(printed)
}
