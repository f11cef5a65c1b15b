use std::alloc::{AllocError, Global};
use std::collections::VecDeque;
use std::sync::{Condvar, Mutex, Wait};

/// Who waits at a desk, and how many threads are idle.
struct Held<T> {
    waiting: VecDeque<T>,
    /// How many threads serve nobody.
    free: usize,
    is_closed: bool,
}

impl<T: Drop> Drop for Held<T> {
    fn drop(self) {
        let Held {
            waiting,
            free: _,
            is_closed: _,
        } = self;
        drop(waiting);
    }
}

impl<T: Drop> Held<T> {
    /// Whether an idle thread has nothing to do.
    fn is_quiet(&self) -> bool {
        self.waiting.is_empty() && !self.is_closed
    }
}

/// Hands callers who have asked to idle threads. Only idle threads wait here.
pub struct Desk<T> {
    held: Mutex<Held<T>>,
    came: Condvar,
}

impl<T: Drop> Drop for Desk<T> {
    fn drop(self) {
        let Desk { held, came: _ } = self;
        drop(held);
    }
}

impl<T: Drop> Desk<T> {
    /// An empty desk for this many threads, all idle.
    pub fn new(alloc: Global, threads: usize) -> Result<Desk<T>, AllocError> {
        let held = Held {
            waiting: VecDeque::with_capacity(alloc, threads)?,
            free: threads,
            is_closed: false,
        };
        Ok(Desk {
            held: Mutex::new(held),
            came: Condvar::new(),
        })
    }

    /// Hands a caller to an idle thread. False: no thread is idle, and the caller was dropped.
    pub fn offer<R: Wait>(&self, rt: &R, visitor: T) -> bool {
        let mut held = self.held.lock(rt);
        if held.is_closed || held.waiting.len() >= held.free {
            return false;
        }
        let is_taken = held.waiting.push_back(visitor).is_ok();
        drop(held);
        self.came.notify_one();
        is_taken
    }

    /// Waits for a caller. None: the desk was closed.
    pub fn take<R: Wait>(&self, rt: &R) -> Option<T> {
        let held = self.held.lock(rt);
        let mut held = self.came.wait_while(rt, held, |held| held.is_quiet());
        held.free = held.free.saturating_sub(1);
        held.waiting.pop_front()
    }

    /// The thread has finished with its caller and is idle again.
    pub fn release<R: Wait>(&self, rt: &R) {
        let mut held = self.held.lock(rt);
        held.free = held.free.saturating_add(1);
    }

    /// Closes the desk: each waiting thread gets None.
    pub fn close<R: Wait>(&self, rt: &R) {
        let mut held = self.held.lock(rt);
        held.is_closed = true;
        drop(held);
        self.came.notify_all();
    }
}
