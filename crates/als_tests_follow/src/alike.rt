use crate::logs::{frames, log};
use crate::sessions::{Left, follow_with, is_quiet};
use crate::standbys::{failing, standby};
use als_engine::Events;
use als_follow::Followed;
use als_sample_logs::FIRST;
use std::alloc::Global;
use std::process::Abort;
use std::sync::Wait;
use std::thread::Threads;

/// What was told in a session, and what it left.
#[derive(Drop)]
struct Outcome {
    told: Vec<u8>,
    left: Left,
}

impl Outcome {
    fn is_same(&self, other: &Outcome) -> bool {
        self.told.as_slice() == other.told.as_slice() && self.left.is_same(&other.left)
    }
}

/// A session over a log with so many workers, which ends by the fault of this number, 0: by none. All
/// that is held is put away. `None`: it ended otherwise, as where allocation fails.
fn session<R: Threads + Wait + Sync + Abort>(
    rt: &R,
    alloc: Global,
    text: &[u8],
    workers: usize,
    wanted: u32,
) -> Option<Outcome> {
    let sent = frames(alloc, text, FIRST)?;
    let (disks, _fuses) = failing(alloc)?;
    let (engine, reader) = standby(rt, alloc, disks)?;
    let told = Vec::new(alloc);
    let Followed {
        engine,
        reader: _,
        writer: told,
        ended,
    } = follow_with(rt, alloc, engine, workers, sent.as_slice(), told);
    let fault = match ended? {
        Ok(()) => 0,
        Err(fault) => fault.number(),
    };
    if fault != wanted || !is_quiet(&engine) {
        return None;
    }
    let end = engine.status().end.0 as usize;
    let left = Left::of(rt, alloc, engine, reader)?;
    assert!(rt; left.log.as_slice().get(..end) == text.get(..end));
    Some(Outcome { told, left })
}

/// Sessions with 1, 4 and 8 workers tell and leave what that of one thread does.
fn are_alike<R: Threads + Wait + Sync + Abort>(
    rt: &R,
    alloc: Global,
    text: &[u8],
    wanted: u32,
) -> Option<()> {
    let one = session(rt, alloc, text, 0, wanted)?;
    assert!(rt; one.left.commits > 0);
    for workers in [1, 4, 8] {
        let other = session(rt, alloc, text, workers, wanted)?;
        assert!(rt; other.is_same(&one), "with {workers} workers");
    }
    Some(())
}

#[test]
fn workers_follow_as_one_thread_does(rt: HostRuntime) {
    let alloc = rt.alloc();
    let text = log(alloc).or_else(|| log(alloc)).expect(&rt, "a log");
    let text = text.as_slice();
    assert!(rt;
        are_alike(&rt, alloc, text, 0).is_some() || are_alike(&rt, alloc, text, 0).is_some()
    );
}

/// A log whose records come once more behind it, where each has another LSN. `None`: memory was
/// refused.
fn log_twice(alloc: Global) -> Option<Vec<u8>> {
    let mut text = log(alloc)?;
    let again = log(alloc)?;
    text.extend_from_slice(again.as_slice().get(FIRST..)?).ok()?;
    Some(text)
}

#[test]
fn a_refused_record_ends_all_threads(rt: HostRuntime) {
    let alloc = rt.alloc();
    let text = log_twice(alloc)
        .or_else(|| log_twice(alloc))
        .expect(&rt, "a log");
    let text = text.as_slice();
    // WrongLsn.
    assert!(rt;
        are_alike(&rt, alloc, text, 5).is_some() || are_alike(&rt, alloc, text, 5).is_some()
    );
}
