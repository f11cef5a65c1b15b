use std::sync::atomic::{AtomicBool, Ordering};

/// Whether nobody may come any more. Threads share it.
#[derive(Drop)]
pub struct Closing {
    is_closed: AtomicBool,
}

impl Closing {
    /// Whoever connects may come.
    pub fn new() -> Closing {
        Closing {
            is_closed: AtomicBool::new(false),
        }
    }

    /// Nobody may come any more.
    pub fn close(&self) {
        self.is_closed.store(true, Ordering::SeqCst);
    }

    /// Whether it was closed.
    pub fn is_closed(&self) -> bool {
        self.is_closed.load(Ordering::SeqCst)
    }
}
