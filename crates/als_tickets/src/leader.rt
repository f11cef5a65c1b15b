ghost use Rattle.std.specs.Prelude.{◌≡◌, ◌++◌, ◌∷◌, []};
ghost use Rattle.als_tickets.specs.Replies.{replies_of};

use crate::account::Account;
use crate::answered::Answered;
use crate::book::Naming;
use crate::oath::Oath;
use crate::question::Question;
use crate::ticket::Ticket;
use als_seats::{Ask, Place, Waited};
use std::marker::PhantomData;
use std::sync::Wait;
use std::time::{Clock, Duration};

/// The answering end.
pub struct Leader<T, A, O: Oath<T, A>, J: Naming> {
    pub(crate) leader: als_seats::Leader<Question<T, J>, Answered<T, A, O, J>>,
}

impl<T: Drop, A: Drop, O: Oath<T, A>, J: Naming> Drop for Leader<T, A, O, J> {
    fn drop(self) {
        let Leader { leader } = self;
        drop(leader);
    }
}

impl<T: Drop, A: Drop, O: Oath<T, A>, J: Naming> Leader<T, A, O, J> {
    /// Sleeps until a question waits or the line is closed, at most this long.
    pub fn wait<R: Wait + Clock>(&self, rt: &R, at_most: Duration) -> Waited {
        self.leader.wait(rt, at_most)
    }

    /// Takes the question that was put first. None: no question waits.
    pub fn next<R: Wait>(&self, rt: &R) -> Option<Ask<Question<T, J>>> {
        self.leader.next(rt)
    }

    /// Answers the question of a place, which has this ticket, and notes it. If it was the asker's last one,
    /// the asker wakes.
    pub fn tell<R: Wait>(
        &self,
        rt: &R,
        place: Place,
        ticket: Ticket<T, J>,
        answer: A,
        account: &mut Account<T, A>,
    )
        requires { O.may_tell ticket.question.value answer }
        ensures { replies_of account.new ≡ replies_of account.old
            ++ record { place = place; question = ticket.question.value; answer = answer } ∷ [] }
    {
        account.note(place, &ticket.question, &answer);
        let answered = Answered {
            ticket,
            answer,
            of: PhantomData,
        };
        self.leader.tell(rt, place, answered);
    }

    /// Ends: nothing is put any more, waiting questions are not begun, and begun ones without an answer
    /// are lost.
    pub fn end<R: Wait>(self, rt: &R) {
        let Leader { leader } = self;
        leader.end(rt);
    }
}
