use crate::ask::Ask;
use crate::line::Line;
use crate::outcome::Outcome;
use crate::place::Place;
use crate::seat::Seat;
use crate::waited::Waited;
use std::alloc::Global;
use std::sync::{Arc, Wait};
use std::time::{Clock, Duration};

/// The answering end.
pub struct Leader<T, A> {
    pub(crate) line: Arc<Line<T>, Global>,
    pub(crate) seats: Vec<Arc<Seat<A>, Global>>,
}

impl<T: Drop, A: Drop> Drop for Leader<T, A> {
    fn drop(self) {
        let Leader { line, seats } = self;
        drop(line);
        drop(seats);
    }
}

impl<T: Drop, A: Drop> Leader<T, A> {
    /// Sleeps until a question waits or the line is closed, at most this long.
    pub fn wait<R: Wait + Clock>(&self, rt: &R, at_most: Duration) -> Waited {
        self.line.wait(rt, at_most)
    }

    /// Takes the question that was put first. None: no question waits.
    pub fn next<R: Wait>(&self, rt: &R) -> Option<Ask<T>> {
        self.line.next(rt)
    }

    /// Answers the question of a place. If it was the asker's last one, the asker wakes.
    pub fn tell<R: Wait>(&self, rt: &R, place: Place, answer: A) {
        self.set_outcome(rt, place, Outcome::Answered(answer));
    }

    /// Writes the outcome of the question of a place.
    fn set_outcome<R: Wait>(&self, rt: &R, place: Place, outcome: Outcome<A>) {
        if let Some(seat) = self.seats.get(place.seat as usize) {
            seat.set_outcome(rt, place.at as usize, outcome);
        }
    }

    /// Ends: nothing is put any more, waiting questions are not begun, and begun ones without an answer
    /// are lost.
    pub fn end<R: Wait>(self, rt: &R) {
        self.line.close(rt);
        for _ in rt.forever() {
            let Some(ask) = self.line.next(rt) else {
                break;
            };
            self.set_outcome(rt, ask.place, Outcome::NotBegun);
        }
        for seat in &self.seats {
            seat.end(rt);
        }
    }
}
