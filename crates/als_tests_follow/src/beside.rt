use crate::logs::{FRAME, frames, log};
use crate::sessions::{EACH, follow_each, is_quiet};
use crate::standbys::{in_memory, standby};
use crate::watched::{Watch, Watched};
use als_disk::MemDisk;
use als_engine::Disks;
use als_follow::Followed;
use als_sample_logs::FIRST;
use std::alloc::Global;
use std::io::{self, Read};
use std::process::Abort;
use std::sync::Wait;
use std::thread::Threads;

/// A stream is held back for at most this many naps of a millisecond.
const NAPS: u64 = 8_000;

/// So many bytes of log never come.
const NEVER: u64 = 1 << 40;

/// Why pages are redone and written, and checkpoints taken, beside a session.
#[derive(Clone, Copy)]
enum Cause {
    /// The log grew.
    Growth,
    /// The log did not grow for a while. What waits is too little for redo while it grows.
    Quiet,
}

impl Cause {
    /// The log bytes from one checkpoint to the next.
    fn each(self) -> u64 {
        match self {
            Cause::Growth => EACH,
            Cause::Quiet => NEVER,
        }
    }

    /// The bytes of the stream that are not held back.
    fn free(self) -> usize {
        match self {
            Cause::Growth => 10 * FRAME,
            Cause::Quiet => 2 * FRAME,
        }
    }

    /// Whether checkpoints in these regions are enough. A second one is in the other region, once the
    /// first is published.
    fn is_enough(self, near: bool, far: bool) -> bool {
        match self {
            Cause::Growth => near && far,
            Cause::Quiet => near || far,
        }
    }
}

/// What is seen of a standby from outside.
#[derive(Drop)]
struct Watches {
    cause: Cause,
    log: Watch,
    control: Watch,
    pages: Watch,
}

impl Watches {
    fn new(cause: Cause) -> Watches {
        Watches {
            cause,
            log: Watch::new(),
            control: Watch::new(),
            pages: Watch::new(),
        }
    }

    /// The same devices, watched.
    fn watch(&self, disks: Disks<MemDisk>) -> Disks<Watched<'_, MemDisk>> {
        let Disks {
            log,
            control,
            pages,
        } = disks;
        Disks {
            log: Watched::new(log, &self.log),
            control: Watched::new(control, &self.control),
            pages: Watched::new(pages, &self.pages),
        }
    }

    /// Whether pages were read, to be redone, and written, and checkpoints were begun.
    fn are_all_seen(&self) -> bool {
        let near = self.control.has_written_near();
        let far = self.control.has_written_far();
        self.pages.has_read() && self.pages.has_written_near() && self.cause.is_enough(near, far)
    }

    /// Forgets what was seen.
    fn forget(&self) {
        self.control.forget();
        self.pages.forget();
    }

    /// Waits for the other threads until all is seen.
    fn wait<R: Wait>(&self, rt: &R) {
        for _ in 0..NAPS {
            if self.are_all_seen() {
                break;
            }
            self.pages.nap(rt);
        }
    }
}

/// A stream that holds back what is behind its first bytes, until all is seen. Where it is not, the
/// stream ends there.
#[derive(Drop)]
struct Held<'a, R: Wait> {
    rt: &'a R,
    bytes: &'a [u8],
    free: usize,
    watches: &'a Watches,
}

impl<R: Wait> Read for Held<'_, R> {
    fn read(&mut self, into: &mut [u8]) -> io::Result<usize> {
        if self.free == 0 {
            self.watches.wait(self.rt);
            if !self.watches.are_all_seen() {
                return Ok(0);
            }
        }
        let count = self.bytes.read(into)?;
        self.free = self.free.saturating_sub(count);
        Ok(count)
    }
}

/// A session whose rest is held back until pages are redone and written and checkpoints are taken.
/// `None`: they were not, so that it was cut, or allocation failed.
fn goes_on_beside<R: Threads + Wait + Sync>(
    rt: &R,
    alloc: Global,
    workers: usize,
    cause: Cause,
) -> Option<()> {
    let text = log(alloc)?;
    let sent = frames(alloc, text.as_slice(), FIRST)?;
    let watches = Watches::new(cause);
    let (engine, _reader) = standby(rt, alloc, watches.watch(in_memory(alloc)))?;
    watches.forget();
    let stream = Held {
        rt,
        bytes: sent.as_slice(),
        free: cause.free(),
        watches: &watches,
    };
    let told = Vec::new(alloc);
    let Followed {
        engine,
        reader: _,
        writer: told,
        ended,
    } = follow_each(rt, alloc, engine, workers, cause.each(), stream, told);
    drop(told);
    ended?.ok()?;
    if is_quiet(&engine) { Some(()) } else { None }
}

/// Sessions of one worker and of four.
fn go_on_beside<R: Threads + Wait + Sync + Abort>(rt: &R, alloc: Global, cause: Cause) {
    for workers in [1, 4] {
        let seen = goes_on_beside(rt, alloc, workers, cause).is_some()
            || goes_on_beside(rt, alloc, workers, cause).is_some();
        assert!(rt; seen, "with {workers} workers");
    }
}

#[test]
fn redo_and_checkpoints_go_on_beside_a_session(rt: HostRuntime) {
    go_on_beside(&rt, rt.alloc(), Cause::Growth);
}

#[test]
fn a_quiet_log_is_redone_written_and_checkpointed(rt: HostRuntime) {
    go_on_beside(&rt, rt.alloc(), Cause::Quiet);
}
