use std::sync::atomic::{AtomicBool, AtomicU64, Ordering};

/// Whether a shipper ends: no session waits for its log to grow any more. And how often those who wait were knocked at.
#[derive(Drop)]
pub(crate) struct Stop {
    is_set: AtomicBool,
    knocks: AtomicU64,
}

impl Stop {
    /// It goes on.
    pub fn new() -> Stop {
        Stop {
            is_set: AtomicBool::new(false),
            knocks: AtomicU64::new(0),
        }
    }

    /// It ends.
    pub fn set(&self) {
        self.is_set.store(true, Ordering::SeqCst);
    }

    /// Each session that waits gives its follower a sign now.
    pub fn knock(&self) {
        self.knocks.fetch_add(1, Ordering::SeqCst);
    }

    /// How often it was knocked.
    pub fn knocks(&self) -> u64 {
        self.knocks.load(Ordering::SeqCst)
    }

    pub fn is_set(&self) -> bool {
        self.is_set.load(Ordering::SeqCst)
    }
}
