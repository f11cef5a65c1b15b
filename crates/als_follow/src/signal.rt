use std::sync::Wait;
use std::sync::atomic::{AtomicU64, Ordering};
use std::time::Duration;

/// The longest wait of `wait_a_second`, in seconds.
const SECOND: u64 = 1;

/// What threads sleep on. A notification wakes all that wait, also one that is about to sleep: a thread
/// notes the count of notifications first, checks its condition, and sleeps only while the count stays.
#[derive(Drop)]
pub(crate) struct Signal {
    count: AtomicU64,
    waiters: AtomicU64,
}

impl Signal {
    pub fn new() -> Signal {
        Signal {
            count: AtomicU64::new(0),
            waiters: AtomicU64::new(0),
        }
    }

    /// Wakes all that wait. Where nobody does it makes no system call.
    pub fn notify(&self) {
        self.count.fetch_add(1, Ordering::SeqCst);
        if self.waiters.load(Ordering::SeqCst) != 0 {
            self.count.wake_all();
        }
    }

    /// Begins to wait, and returns the count of notifications. One of the calls below ends it.
    pub fn prepare(&self) -> u64 {
        self.waiters.fetch_add(1, Ordering::SeqCst);
        self.count.load(Ordering::SeqCst)
    }

    /// Ends waiting without sleep.
    pub fn cancel(&self) {
        self.waiters.fetch_sub(1, Ordering::SeqCst);
    }

    /// Sleeps until a notification after that count.
    pub fn wait<R: Wait>(&self, rt: &R, count: u64) {
        self.count.park(rt, (count % (1 << 32)) as u32);
        self.cancel();
    }

    /// Sleeps until a notification after that count, for a second at most. Whether one came.
    pub fn wait_a_second<R: Wait>(&self, rt: &R, count: u64) -> bool {
        let limit = Duration::from_secs(SECOND);
        self.count
            .park_timeout(rt, (count % (1 << 32)) as u32, limit);
        self.cancel();
        self.count.load(Ordering::SeqCst) != count
    }

    /// Sleeps until a notification after that count, for a millisecond at most.
    pub fn wait_a_millisecond<R: Wait>(&self, rt: &R, count: u64) {
        let limit = Duration::from_millis(1);
        self.count
            .park_timeout(rt, (count % (1 << 32)) as u32, limit);
        self.cancel();
    }
}
