ghost use Rattle.std.specs.Prelude.{◌≡◌, ◌≤◌, ◌++◌, ◌-◌, true, length, take, option_to_list};
ghost use Rattle.std.specs.List.{filter};
ghost use Rattle.als_seats.specs.Asks.{asks_of, is_of, is_of_other};
ghost use Rattle.als_seats.specs.Outcomes.{TakesBack};

use crate::ask::Ask;
use crate::outcome::Outcome;
use crate::place::{PLACES, Place};
use crate::slots::Slots;
use std::alloc::Global;
use std::collections::VecDeque;

/// The questions that wait, in the order in which they were put.
pub(crate) struct Queue<T> {
    waiting: VecDeque<Ask<T>>,
    is_closed: bool,
}

impl<T: Drop> Drop for Queue<T> {
    fn drop(self) {
        let Queue {
            waiting,
            is_closed: _,
        } = self;
        drop(waiting);
    }
}

impl<T: Drop> Queue<T> {
    /// An open, empty queue.
    pub fn new(alloc: Global) -> Queue<T> {
        Queue {
            waiting: VecDeque::new(alloc),
            is_closed: false,
        }
    }

    /// Nothing is put any more.
    pub fn close(&mut self) {
        self.is_closed = true;
    }

    pub fn is_closed(&self) -> bool {
        self.is_closed
    }

    /// Whether the leader has nothing to do: nothing waits, and it is open.
    pub fn is_quiet(&self) -> bool {
        self.waiting.is_empty() && !self.is_closed
    }

    /// Whether nothing waits.
    pub fn is_empty(&self) -> bool {
        self.waiting.is_empty()
    }

    /// Puts the questions of a seat and returns how many were put: the first ones. The others are
    /// dropped: all if the queue is closed or there is no memory, and those that have no place.
    pub fn put(&mut self, seat: u32, questions: Vec<T>) -> usize
        // They wait after the others, in their order, each with its place.
        ensures put { self.new.waiting.items ≡ self.old.waiting.items
            ++ asks_of seat 0 (take result questions.items) }
        ensures count { result ≤ length questions.items }
        ensures places { result ≤ 600 }
        ensures closed { self.old.is_closed ≡ true → result ≡ 0 }
        ensures same { self.new.is_closed ≡ self.old.is_closed }
    {
        let count = questions.len().min(PLACES);
        if self.is_closed || self.waiting.reserve(count).is_err() {
            return 0;
        }
        push_all(&mut self.waiting, seat, questions)
    }

    /// Takes the question that was put first.
    pub fn next(&mut self) -> Option<Ask<T>>
        ensures { self.old.waiting.items ≡ option_to_list result ++ self.new.waiting.items }
    {
        self.waiting.pop_front()
    }

    /// Takes back the waiting questions of a seat: their outcome is NotBegun, and no other one changes.
    pub fn take_back<A: Drop>(&mut self, seat: u32, slots: &mut Slots<A>)
        // None of them waits any more. The others stay, in their order.
        ensures kept { self.new.waiting.items ≡ filter (is_of_other seat) self.old.waiting.items }
        ensures told { TakesBack seat self.old.waiting.items slots.old.outcomes.items
            slots.new.outcomes.items }
        // As many less are waited for as have left.
        ensures left { slots.new.left ≡ slots.old.left
            - (length self.old.waiting.items - length self.new.waiting.items) }
        ensures over { slots.new.is_over ≡ slots.old.is_over }
        ensures same { self.new.is_closed ≡ self.old.is_closed }
    {
        tell_not_begun(&self.waiting, seat, slots);
        drop_asks(&mut self.waiting, seat);
    }
}

/// The outcome of each waiting question of a seat is NotBegun.
fn tell_not_begun<T: Drop, A: Drop>(waiting: &VecDeque<Ask<T>>, seat: u32, slots: &mut Slots<A>)
    ensures told { TakesBack seat waiting.now.items slots.old.outcomes.items
        slots.new.outcomes.items }
    ensures left { slots.new.left ≡ slots.old.left
        - length (filter (is_of seat) waiting.now.items) }
    ensures over { slots.new.is_over ≡ slots.old.is_over }
{
    for ask in waiting.iter() {
        if ask.place.seat == seat {
            slots.set_outcome(ask.place.at as usize, Outcome::NotBegun);
        }
    }
}

/// Drops the questions of a seat.
fn drop_asks<T: Drop>(waiting: &mut VecDeque<Ask<T>>, seat: u32)
    ensures { waiting.new.items ≡ filter (is_of_other seat) waiting.old.items }
{
    waiting.retain(|ask| ask.place.seat != seat);
}

/// Appends the questions of a seat that have a place, while there is room. Returns how many.
fn push_all<T: Drop>(waiting: &mut VecDeque<Ask<T>>, seat: u32, questions: Vec<T>) -> usize
    ensures put { waiting.new.items ≡ waiting.old.items
        ++ asks_of seat 0 (take result questions.items) }
    ensures count { result ≤ length questions.items }
    ensures places { result ≤ 600 }
{
    let mut put: u32 = 0;
    for question in questions {
        if put as usize >= PLACES {
            break;
        }
        let place = Place { seat, at: put };
        if waiting.push_back(Ask { place, question }).is_err() {
            break;
        }
        put += 1;
    }
    put as usize
}
