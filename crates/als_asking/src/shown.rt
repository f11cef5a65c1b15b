ghost use Rattle.std.specs.Prelude.{IfSome};
ghost use Rattle.als_asking.specs.Withholding.{IsWithheld};

use crate::denied::Denied;
use std::sync::atomic::{AtomicBool, AtomicU64, Ordering};
use std::time::{Clock, Duration};

/// What the threads that serve reads know of the standbys of their primary. Its leader notes it.
#[derive(Drop)]
pub struct Shown {
    /// Whether the log with which the primary began is confirmed.
    is_confirmed: AtomicBool,
    /// When the last round began that enough standbys answered: milliseconds of the clock, and one. 0: there was none.
    heard: AtomicU64,
    /// For how many milliseconds after that commits are read. None: they are read however long ago it was.
    read_for: Option<u64>,
}

impl Shown {
    /// It is not confirmed yet, and no standby was heard. Commits are read for so long after a round.
    pub fn new(read_for: Option<Duration>) -> Shown {
        let read_for = match read_for {
            Some(time) => Some(milliseconds(time)),
            None => None,
        };
        Shown {
            is_confirmed: AtomicBool::new(false),
            heard: AtomicU64::new(0),
            read_for,
        }
    }

    /// It is confirmed from now on.
    pub fn confirm(&self) {
        self.is_confirmed.store(true, Ordering::SeqCst);
    }

    /// Whether it is confirmed.
    pub fn is_confirmed(&self) -> bool {
        self.is_confirmed.load(Ordering::SeqCst)
    }

    /// Enough standbys have answered a round that began then.
    pub fn hear(&self, began: Duration) {
        let at = milliseconds(began).saturating_add(1);
        self.heard.store(at, Ordering::SeqCst);
    }

    /// Whether enough standbys have answered a round that began no longer ago than commits are read for.
    pub fn is_heard(&self, now: Duration) -> bool {
        let Some(read_for) = self.read_for else {
            return true;
        };
        let heard = self.heard.load(Ordering::SeqCst);
        heard != 0 && milliseconds(now) <= heard.saturating_add(read_for)
    }

    /// Why no commit is read at present. None: they are read.
    pub fn why_withheld<R: Clock>(&self, clock: &R) -> Option<Denied>
        ensures { IfSome result IsWithheld }
    {
        if !self.is_confirmed() {
            return Some(Denied::Early);
        }
        match clock.monotonic() {
            Ok(now) if self.is_heard(now) => None,
            Ok(_) => Some(Denied::Unheard),
            Err(_) if self.read_for.is_none() => None,
            Err(_) => Some(Denied::Unheard),
        }
    }
}

/// The whole milliseconds of a time.
fn milliseconds(time: Duration) -> u64 {
    let seconds = time.as_secs().saturating_mul(1_000);
    seconds.saturating_add(u64::from(time.subsec_millis()))
}
