use crate::line::Line;
use crate::outcome::Outcome;
use crate::seat::Seat;
use std::alloc::{AllocError, Global};
use std::sync::{Arc, Wait};
use std::time::{Clock, Duration};

/// The asking end, with a seat of its own. One thread uses it at a time.
pub struct Asker<T, A> {
    pub(crate) line: Arc<Line<T>, Global>,
    pub(crate) seat: Arc<Seat<A>, Global>,
    /// The number of its seat.
    pub(crate) number: u32,
}

impl<T: Drop, A: Drop> Drop for Asker<T, A> {
    fn drop(self) {
        let Asker {
            line,
            seat,
            number: _,
        } = self;
        drop(line);
        drop(seat);
    }
}

impl<T: Drop, A: Drop> Asker<T, A> {
    /// Asks these questions and waits for their outcomes, which are returned in the same order. Questions
    /// that are not begun within `patience` are taken back. Err: no memory for the outcomes, and nothing
    /// was asked.
    pub fn ask<R: Wait + Clock>(
        &mut self,
        rt: &R,
        alloc: Global,
        questions: Vec<T>,
        patience: Duration,
    ) -> Result<Vec<Outcome<A>>, AllocError> {
        let outcomes = all_lost(alloc, questions.len())?;
        let count = questions.len();
        let seat: &Seat<A> = &self.seat;
        seat.begin(rt, outcomes);
        let put = self.line.put(rt, self.number, questions);
        if put < count {
            seat.refuse_from(rt, put);
        }
        match seat.wait_for(rt, patience, Vec::new(alloc)) {
            Ok(outcomes) => Ok(outcomes),
            Err(none) => {
                self.line.take_back(rt, self.number, seat);
                Ok(seat.wait(rt, none))
            }
        }
    }

    /// Closes the line: nothing is put any more, and the leader ends once it sees that.
    pub fn close<R: Wait>(&self, rt: &R) {
        self.line.close(rt);
    }
}

/// An outcome `Lost` for each question, until another one is written.
fn all_lost<A: Drop>(alloc: Global, count: usize) -> Result<Vec<Outcome<A>>, AllocError> {
    let mut outcomes = Vec::with_capacity(alloc, count)?;
    for _ in 0..count {
        outcomes.push(Outcome::Lost)?;
    }
    Ok(outcomes)
}
