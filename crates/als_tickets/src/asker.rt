ghost use Rattle.std.specs.Prelude.{◌≡◌, [], IfOk, map};
ghost use Rattle.als_tickets.specs.Replies.{IsOwed, AreOwed};

use crate::answered::Answered;
use crate::book::Naming;
use crate::numbers::Numbers;
use crate::oath::Oath;
use crate::question::Question;
use crate::ticket::Ticket;
use als_seats::Outcome;
use std::alloc::{AllocError, Global};
use std::sync::{Arc, Wait};
use std::time::{Clock, Duration};

/// The asking end, with a seat of its own. One thread uses it at a time.
pub struct Asker<T, A, O: Oath<T, A>, J: Naming> {
    pub(crate) asker: als_seats::Asker<Question<T, J>, Answered<T, A, O, J>>,
    pub(crate) numbers: Arc<Numbers<T, J>, Global>,
}

impl<T: Drop, A: Drop, O: Oath<T, A>, J: Naming> Drop for Asker<T, A, O, J> {
    fn drop(self) {
        let Asker { asker, numbers } = self;
        drop(asker);
        drop(numbers);
    }
}

impl<T: Drop, A: Drop, O: Oath<T, A>, J: Naming> Asker<T, A, O, J> {
    /// Asks these questions and waits for their outcomes, which are returned in the same order. Questions
    /// that are not begun within `patience` are taken back. Err: no memory for the outcomes, and nothing
    /// was asked.
    pub fn ask<R: Wait + Clock>(
        &mut self,
        rt: &R,
        alloc: Global,
        questions: Vec<T>,
        patience: Duration,
    ) -> Result<Vec<Outcome<A>>, AllocError>
        // No question has two outcomes. Each answer may be told of the question at its place.
        ensures { IfOk result (λ outcomes. AreOwed O.may_tell questions.items outcomes.items) }
    {
        let numbered = self.numbers.number(rt, alloc, questions)?;
        let (asked, tickets) = numbered.into_parts();
        let mut outcomes = Vec::with_capacity(alloc, tickets.len())?;
        let answered = self.asker.ask(rt, alloc, asked, patience)?;
        take_all(&tickets, answered, &mut outcomes);
        Ok(outcomes)
    }

    /// Closes the line: nothing is put any more, and the leader ends once it sees that.
    pub fn close<R: Wait>(&self, rt: &R) {
        self.asker.close(rt);
    }
}

/// The outcomes of the questions with these tickets, as far as there is room.
fn take_all<T: Drop, A: Drop, O: Oath<T, A>, J: Naming>(
    tickets: &Vec<Ticket<T, J>>,
    answered: Vec<Outcome<Answered<T, A, O, J>>>,
    outcomes: &mut Vec<Outcome<A>>,
)
    requires empty { outcomes.old.items ≡ [] }
    ensures { AreOwed O.may_tell (map (λ t. t.question.value) tickets.now.items)
        outcomes.new.items }
{
    for outcome in answered {
        let Some(mine) = tickets.get(outcomes.len()) else {
            break;
        };
        if outcomes.push(take::<T, A, O, J>(mine, outcome)).is_err() {
            break;
        }
    }
}

/// The outcome of the question with this ticket. An answer to another question is none to this one.
fn take<T: Drop, A: Drop, O: Oath<T, A>, J: Naming>(
    mine: &Ticket<T, J>,
    outcome: Outcome<Answered<T, A, O, J>>,
) -> Outcome<A>
    ensures { IsOwed (O.may_tell mine.now.question.value) result }
{
    match outcome {
        Outcome::Answered(answered) => {
            if answered.ticket.number != mine.number {
                return Outcome::Lost;
            }
            mine.agrees(&answered.ticket);
            Outcome::Answered(answered.into_answer())
        }
        Outcome::NotBegun => Outcome::NotBegun,
        Outcome::Lost => Outcome::Lost,
    }
}
