use crate::work::Work;
use std::sync::atomic::{AtomicU64, Ordering};
use std::time::Duration;

/// What a primary has committed, in atomic cells.
#[derive(Drop)]
pub(crate) struct WorkCells {
    transactions: AtomicU64,
    groups: AtomicU64,
    force_microseconds: AtomicU64,
}

impl WorkCells {
    /// Nothing was committed.
    pub fn new() -> WorkCells {
        WorkCells {
            transactions: AtomicU64::new(0),
            groups: AtomicU64::new(0),
            force_microseconds: AtomicU64::new(0),
        }
    }

    /// Adds a group of transactions whose force took this long.
    pub fn note_group(&self, transactions: u64, force: Duration) {
        let micros = u64::try_from(force.as_micros()).unwrap_or(u64::MAX);
        self.transactions.fetch_add(transactions, Ordering::SeqCst);
        self.groups.fetch_add(1, Ordering::SeqCst);
        self.force_microseconds.fetch_add(micros, Ordering::SeqCst);
    }

    /// What was committed. The numbers are loaded one by one.
    pub fn work(&self) -> Work {
        Work {
            transactions: self.transactions.load(Ordering::SeqCst),
            groups: self.groups.load(Ordering::SeqCst),
            force_microseconds: self.force_microseconds.load(Ordering::SeqCst),
        }
    }
}
