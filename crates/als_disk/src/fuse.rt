ghost use Rattle.std.specs.Prelude.{◌<◌};

use crate::countdown::Countdown;
use std::alloc::{AllocError, Global};
use std::sync::Arc;
use std::sync::atomic::{AtomicU64, Ordering};

/// A handle by which a test makes a device fail at a call of its choice. Its clones are the same
/// fuse.
#[derive(Clone)]
pub struct Fuse {
    left: Arc<AtomicU64>,
}

// Written out: a derived drop is proved wherever a fuse is dropped, this one only here.
impl Drop for Fuse {
    fn drop(self) {
        let Fuse { left } = self;
        drop(left);
    }
}

impl Fuse {
    /// A fuse that does not burn until it is set.
    pub fn new(alloc: Global) -> Result<Fuse, AllocError> {
        let left = Arc::new(alloc, AtomicU64::new(Countdown::NEVER))?;
        Ok(Fuse { left })
    }

    /// Makes that call fail, counted from 1 for the next one, and no other. It replaces what was
    /// set before.
    pub fn fail_at(&self, call: u64)
        requires { 0 < call }
    {
        self.left.store(call, Ordering::SeqCst);
    }

    /// Counts a call, and tells whether it fails.
    pub(crate) fn burn(&self) -> bool {
        let before = self
            .left
            .fetch_update(Ordering::SeqCst, Ordering::SeqCst, |left| {
                Some(Countdown::new(left).next().left())
            });
        match before {
            Ok(left) => Countdown::new(left).burns(),
            Err(_) => false,
        }
    }
}
