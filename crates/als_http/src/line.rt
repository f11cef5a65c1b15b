use crate::guest::Guest;
use std::alloc::{AllocError, Global};
use std::collections::VecDeque;
use std::sync::{Mutex, Wait};

/// The guests whose requests may wait, in the order in which they asked. One thread answers them, one after
/// another, so that no other guest waits for their answers. All threads share it.
pub(crate) struct Line<T> {
    room: usize,
    guests: Mutex<VecDeque<Guest<T>>>,
}

impl<T: Drop> Drop for Line<T> {
    fn drop(self) {
        let Line { room: _, guests } = self;
        drop(guests);
    }
}

impl<T: Drop> Line<T> {
    /// No guest, and room for so many.
    pub fn new(alloc: Global, room: usize) -> Result<Line<T>, AllocError> {
        Ok(Line {
            room,
            guests: Mutex::new(VecDeque::with_capacity(alloc, room)?),
        })
    }

    /// Adds a guest at the end. If there is no room, it is returned.
    pub fn join<R: Wait>(&self, rt: &R, guest: Guest<T>) -> Option<Guest<T>> {
        let mut guests = self.guests.lock(rt);
        if guests.len() >= self.room {
            return Some(guest);
        }
        // There is room.
        let _ = guests.push_back(guest);
        None
    }

    /// Takes the first guest.
    pub fn next<R: Wait>(&self, rt: &R) -> Option<Guest<T>> {
        self.guests.lock(rt).pop_front()
    }
}
