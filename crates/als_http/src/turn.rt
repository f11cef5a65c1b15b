use crate::limits::STILL;
use std::sync::atomic::{AtomicBool, AtomicU64, Ordering};
use std::time::Duration;

/// When a peer began its request, when its response began, and when its thread last looked at it:
/// milliseconds of the clock, plus 1; 0 for never. The two ends of a stream share it.
#[derive(Drop)]
pub(crate) struct Turn {
    asked: AtomicU64,
    answered: AtomicU64,
    looked: AtomicU64,
    /// Whether the next answer is the last one of the connection.
    is_last: AtomicBool,
}

impl Turn {
    /// The peer has just connected.
    pub fn new() -> Turn {
        Turn {
            asked: AtomicU64::new(0),
            answered: AtomicU64::new(0),
            looked: AtomicU64::new(0),
            is_last: AtomicBool::new(false),
        }
    }

    /// A read begins: any response has been sent.
    pub fn listen(&self, now: Duration) {
        self.answered.store(0, Ordering::SeqCst);
        self.looked.store(stamp(now), Ordering::SeqCst);
    }

    /// The thread looks at its peer. Returns whether the node stood still since the last look, as a stopped
    /// process or a busy machine does. That time is not taken from the peer.
    pub fn look(&self, now: Duration) -> bool {
        let still = since(&self.looked, now);
        self.rest(now);
        if still >= STILL {
            put_off(&self.asked, still);
            put_off(&self.answered, still);
        }
        still >= STILL
    }

    /// The thread turns away from its peer: what the peer took until now is the peer's own time.
    pub fn rest(&self, now: Duration) {
        self.looked.store(stamp(now), Ordering::SeqCst);
    }

    /// Bytes of a request came.
    pub fn ask(&self, now: Duration) {
        self.look(now);
        begin(&self.asked, now);
    }

    /// Whether a part of a request has come, and not yet all of it.
    pub fn is_asking(&self) -> bool {
        self.asked.load(Ordering::SeqCst) != 0
    }

    /// Bytes of a response are sent: the request was whole. What has passed since the thread last turned away
    /// from its peer was the node's own time, and is not taken from the peer.
    pub fn answer(&self, now: Duration) {
        self.asked.store(0, Ordering::SeqCst);
        let own = since(&self.looked, now);
        self.rest(now);
        put_off(&self.answered, own);
        begin(&self.answered, now);
    }

    /// The connection has lasted long enough: it ends with the next answer, which says so.
    pub fn end(&self) {
        self.is_last.store(true, Ordering::SeqCst);
    }

    /// Whether the next answer is the last one of the connection.
    pub fn is_last(&self) -> bool {
        self.is_last.load(Ordering::SeqCst)
    }

    /// Milliseconds since the first byte of the current request, or 0.
    pub fn asking(&self, now: Duration) -> u64 {
        since(&self.asked, now)
    }

    /// Milliseconds since the first byte of the current response, or 0.
    pub fn answering(&self, now: Duration) -> u64 {
        since(&self.answered, now)
    }
}

/// The milliseconds of a time.
pub(crate) fn millis(time: Duration) -> u64 {
    time.as_secs()
        .saturating_mul(1000)
        .saturating_add(u64::from(time.subsec_millis()))
}

/// What a cell has for a time.
fn stamp(now: Duration) -> u64 {
    millis(now).saturating_add(1)
}

/// Stores this time in the cell, unless it has an earlier one.
fn begin(cell: &AtomicU64, now: Duration) {
    if cell.load(Ordering::SeqCst) == 0 {
        cell.store(stamp(now), Ordering::SeqCst);
    }
}

/// Makes the time in the cell later by so many milliseconds, if it has one.
fn put_off(cell: &AtomicU64, millis: u64) {
    let then = cell.load(Ordering::SeqCst);
    if then != 0 {
        cell.store(then.saturating_add(millis), Ordering::SeqCst);
    }
}

/// Milliseconds since the time in the cell. 0: it has none.
fn since(cell: &AtomicU64, now: Duration) -> u64 {
    match cell.load(Ordering::SeqCst).checked_sub(1) {
        Some(then) => millis(now).saturating_sub(then),
        None => 0,
    }
}
