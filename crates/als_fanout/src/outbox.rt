use crate::outcome::Outcome;
use std::alloc::{AllocError, Global};
use std::collections::VecDeque;
use std::sync::{Condvar, CondvarTimeouts, Mutex, Wait};
use std::time::{Clock, Duration};

/// So many outcomes wait at most to be printed. A session that has one more waits for room.
const KEPT: usize = 16;

/// The outcomes that wait.
struct Held {
    kept: VecDeque<Outcome>,
    is_closed: bool,
}

impl Drop for Held {
    fn drop(self) {
        let Held { kept, is_closed: _ } = self;
        drop(kept);
    }
}

impl Held {
    /// Whether who has one more waits.
    fn is_full(&self) -> bool {
        self.kept.len() >= KEPT && !self.is_closed
    }
}

/// What the threads of a shipper have to say, for the one that prints it.
pub(crate) struct Outbox {
    held: Mutex<Held>,
    came: Condvar,
    freed: Condvar,
}

impl Drop for Outbox {
    fn drop(self) {
        let Outbox {
            held,
            came: _,
            freed: _,
        } = self;
        drop(held);
    }
}

impl Outbox {
    /// Nobody has anything to say.
    pub fn new(alloc: Global) -> Result<Outbox, AllocError> {
        let held = Held {
            kept: VecDeque::with_capacity(alloc, KEPT)?,
            is_closed: false,
        };
        Ok(Outbox {
            held: Mutex::new(held),
            came: Condvar::new(),
            freed: Condvar::new(),
        })
    }

    /// One outcome more. It waits for room, until the outbox is closed: then nobody prints it.
    pub fn put<R: Wait>(&self, rt: &R, outcome: Outcome) {
        let held = self.held.lock(rt);
        let mut held = self.freed.wait_while(rt, held, |held| held.is_full());
        if held.kept.len() < KEPT {
            // There is room.
            let _ = held.kept.push_back(outcome);
        }
        drop(held);
        self.came.notify_one();
    }

    /// Takes the first one, for which it waits for so long at most.
    pub fn take<R: Wait + Clock>(&self, rt: &R, at_most: Duration) -> Option<Outcome> {
        let held = self.held.lock(rt);
        let (mut held, _) = self
            .came
            .wait_timeout_while(rt, held, at_most, |held| held.kept.is_empty());
        let first = held.kept.pop_front();
        drop(held);
        self.freed.notify_one();
        first
    }

    /// Nobody waits for room any more.
    pub fn close<R: Wait>(&self, rt: &R) {
        self.held.lock(rt).is_closed = true;
        self.freed.notify_all();
    }
}
