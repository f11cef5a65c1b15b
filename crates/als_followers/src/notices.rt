use crate::hung_up::HungUp;
use crate::notice::Notice;
use std::alloc::{AllocError, Global};
use std::collections::VecDeque;
use std::sync::{Mutex, Wait};
use std::time::{Clock, Duration};

/// So many notices are kept at most. Where more come, they are dropped.
const KEPT: usize = 64;

/// Notices, and the addresses that were reported lately.
struct Kept {
    notices: VecDeque<Notice>,
    hung_up: HungUp,
}

impl Drop for Kept {
    fn drop(self) {
        let Kept { notices, hung_up } = self;
        drop(notices);
        drop(hung_up);
    }
}

/// The last notices, until they are taken.
pub(crate) struct Notices {
    kept: Mutex<Kept>,
}

impl Drop for Notices {
    fn drop(self) {
        let Notices { kept } = self;
        drop(kept);
    }
}

impl Notices {
    /// No notice.
    pub fn new(alloc: Global) -> Result<Notices, AllocError> {
        let kept = Kept {
            notices: VecDeque::with_capacity(alloc, KEPT)?,
            hung_up: HungUp::new(alloc),
        };
        Ok(Notices {
            kept: Mutex::new(kept),
        })
    }

    /// One more. That an address was hung up on is kept at most once a minute.
    pub fn put<R: Wait + Clock>(&self, rt: &R, notice: Notice) {
        let now = now_of(rt);
        let mut kept = self.kept.lock(rt);
        if kept.hung_up.is_news(&notice, now) && kept.notices.len() < KEPT {
            // There is room.
            let _ = kept.notices.push_back(notice);
        }
    }

    /// Takes the first one.
    pub fn take<R: Wait>(&self, rt: &R) -> Option<Notice> {
        self.kept.lock(rt).notices.pop_front()
    }
}

/// The time by the clock, 0 if it cannot be read.
fn now_of<C: Clock>(clock: &C) -> Duration {
    match clock.monotonic() {
        Ok(now) => now,
        Err(_) => Duration::ZERO,
    }
}
