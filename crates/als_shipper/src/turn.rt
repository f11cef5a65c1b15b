use std::sync::atomic::{AtomicU64, Ordering};
use std::time::Duration;

/// Since when an end of a session is waited for: milliseconds of the clock, and 1. 0: it is not. Both
/// streams of a session share it.
#[derive(Drop)]
pub(crate) struct Turn {
    reading: AtomicU64,
    writing: AtomicU64,
}

impl Turn {
    /// Nothing is waited for.
    pub fn new() -> Turn {
        Turn {
            reading: AtomicU64::new(0),
            writing: AtomicU64::new(0),
        }
    }

    /// A frame is read. It answers for how long it has been.
    pub fn read(&self, now: Duration) -> Duration {
        self.writing.store(0, Ordering::SeqCst);
        since(&self.reading, now)
    }

    /// A frame is written. It answers for how long it has been.
    pub fn write(&self, now: Duration) -> Duration {
        self.reading.store(0, Ordering::SeqCst);
        since(&self.writing, now)
    }
}

/// The milliseconds of a time.
fn millis(time: Duration) -> u64 {
    time.as_secs()
        .saturating_mul(1000)
        .saturating_add(u64::from(time.subsec_millis()))
}

/// The time since the one that the cell holds. Where it holds none, it holds this one from now on.
fn since(cell: &AtomicU64, now: Duration) -> Duration {
    let now = millis(now);
    match cell.load(Ordering::SeqCst).checked_sub(1) {
        Some(then) => Duration::from_millis(now.saturating_sub(then)),
        None => {
            cell.store(now.saturating_add(1), Ordering::SeqCst);
            Duration::from_millis(0)
        }
    }
}
