use crate::ask::Ask;
use crate::queue::Queue;
use crate::seat::Seat;
use crate::waited::Waited;
use std::alloc::Global;
use std::sync::{Condvar, CondvarTimeouts, Mutex, Wait};
use std::time::{Clock, Duration};

/// The line: the questions that wait, and what the leader sleeps on.
pub(crate) struct Line<T> {
    queue: Mutex<Queue<T>>,
    put: Condvar,
}

impl<T: Drop> Drop for Line<T> {
    fn drop(self) {
        let Line { queue, put: _ } = self;
        drop(queue);
    }
}

impl<T: Drop> Line<T> {
    /// An open, empty line.
    pub fn new(alloc: Global) -> Line<T> {
        Line {
            queue: Mutex::new(Queue::new(alloc)),
            put: Condvar::new(),
        }
    }

    /// Puts the questions of a seat and returns how many were put: the first ones.
    pub fn put<R: Wait>(&self, rt: &R, seat: u32, questions: Vec<T>) -> usize {
        let put = self.queue.lock(rt).put(seat, questions);
        self.put.notify_one();
        put
    }

    /// Takes the question that was put first.
    pub fn next<R: Wait>(&self, rt: &R) -> Option<Ask<T>> {
        self.queue.lock(rt).next()
    }

    /// Takes back the questions of a seat that were not begun.
    pub fn take_back<R: Wait, A: Drop>(&self, rt: &R, number: u32, seat: &Seat<A>) {
        let mut queue = self.queue.lock(rt);
        seat.take_back(rt, number, &mut *queue);
    }

    /// Sleeps until a question waits or the line is closed, at most this long.
    pub fn wait<R: Wait + Clock>(&self, rt: &R, at_most: Duration) -> Waited {
        let queue = self.queue.lock(rt);
        if !queue.is_quiet() {
            return find(&*queue);
        }
        let (queue, _) = self
            .put
            .wait_timeout_while(rt, queue, at_most, |queue| queue.is_quiet());
        find(&*queue)
    }

    /// Nothing is put any more.
    pub fn close<R: Wait>(&self, rt: &R) {
        self.queue.lock(rt).close();
        self.put.notify_one();
    }
}

/// What the leader finds in the queue.
fn find<T: Drop>(queue: &Queue<T>) -> Waited {
    if !queue.is_empty() {
        Waited::Asks
    } else if queue.is_closed() {
        Waited::Closed
    } else {
        Waited::Idle
    }
}
