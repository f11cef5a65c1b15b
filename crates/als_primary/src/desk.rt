ghost use Rattle.std.specs.Prelude.{◌≡◌, ◌++◌, ◌∷◌, [], IfOk};
ghost use Rattle.als_primary.specs.Telling.{asked_by, told_of};

use crate::doubts::Doubts;
use crate::group::Group;
use als_engine::{Decision, Fault as EngineFault};
use als_lead::{Answer, Asked, Clients, Waited};
use als_operate::Fault;
use als_report::Board;
use als_seats::{Ask, Place, Waited as Met};
use als_tickets::{Account, Leader, Naming, Oath, Question, Ticket};
use als_writer::Work;
use std::alloc::{AllocError, Global};
use std::collections::VecDeque;
use std::sync::{Arc, Wait};
use std::time::{Clock, Duration};

/// Milliseconds without a question after which the leader is idle.
const IDLE: u64 = 100;

/// A question that was handed out and has no answer yet.
#[derive(Drop)]
struct Taken<J: Naming> {
    place: Place,
    ticket: Ticket<Work, J>,
}

/// The clients of the leader: the askers, each with a seat of its own.
pub(crate) struct Desk<'a, R, O: Oath<Work, Answer>, J: Naming> {
    rt: &'a R,
    board: Arc<Board, Global>,
    doubts: Arc<Doubts, Global>,
    leader: Leader<Work, Answer, O, J>,
    /// What was handed out and has no answer yet, in order.
    waiting: VecDeque<Taken<J>>,
    account: Account<Work, Answer>,
    group: Group,
}

impl<R, O: Oath<Work, Answer>, J: Naming> Drop for Desk<'_, R, O, J> {
    fn drop(self) {
        let Desk {
            rt: _,
            board,
            doubts,
            leader,
            waiting,
            account,
            group: _,
        } = self;
        drop(board);
        drop(doubts);
        drop(leader);
        drop(waiting);
        drop(account);
    }
}

impl<'a, R: Wait + Clock, O: Oath<Work, Answer>, J: Naming> Desk<'a, R, O, J> {
    /// Clients to which nothing was answered yet, of which this many may wait for their answers. The board
    /// receives what each group came to, and `doubts` that some may have come or gone.
    pub fn new(
        rt: &'a R,
        alloc: Global,
        most: usize,
        board: Arc<Board, Global>,
        doubts: Arc<Doubts, Global>,
        leader: Leader<Work, Answer, O, J>,
    ) -> Result<Desk<'a, R, O, J>, AllocError>
        ensures told { IfOk result (λ desk. told_of desk.account ≡ []) }
        ensures waiting { IfOk result (λ desk. desk.waiting.items ≡ []) }
    {
        Ok(Desk {
            rt,
            board,
            doubts,
            leader,
            waiting: VecDeque::with_capacity(alloc, most)?,
            account: Account::new(),
            group: Group::NONE,
        })
    }

    /// Puts an answer into the slot of a question that was handed out.
    fn put(&mut self, taken: Taken<J>, answer: Answer)
        requires may { O.may_tell taken.ticket.question.value answer }
        ensures told { told_of self.new.account ≡ told_of self.old.account
            ++ record { asked = asked_by taken.place taken.ticket.question.value; answer = answer }
            ∷ [] }
        ensures waiting { self.new.waiting ≡ self.old.waiting }
    {
        let Taken { place, ticket } = taken;
        let account = &mut self.account;
        self.leader.tell(self.rt, place, ticket, answer, account);
    }

    /// Ends: waiting questions are not begun, and begun ones without an answer are lost.
    pub fn end(self) {
        let Desk {
            rt,
            board,
            doubts,
            leader,
            waiting,
            account,
            group: _,
        } = self;
        drop(board);
        drop(doubts);
        leader.end(rt);
        drop(waiting);
        drop(account);
    }
}

impl<R: Wait + Clock, O: Oath<Work, Answer>, J: Naming> Clients for Desk<'_, R, O, J> {
    ghost use Rattle.std.specs.Prelude.{◌++◌, map};
    ghost use Rattle.als_lead.specs.Answers.{asked_of};
    ghost use Rattle.als_primary.specs.Telling.{asked_by, told_of};

    // What was put into slots, and what waits.
    ghost taken = { λ desk. asked_of (told_of desk.account)
        ++ map (λ t. asked_by t.place t.ticket.question.value) desk.waiting.items };

    ghost may_tell = { λ asked answer. O.may_tell asked.work answer };

    ghost told = { λ desk. told_of desk.account };

    fn wait(&mut self) -> Result<Waited, Fault> {
        let waited = match self.leader.wait(self.rt, Duration::from_millis(IDLE)) {
            Met::Asks => Waited::Asks,
            Met::Idle => Waited::Idle,
            Met::Closed => Waited::Closed,
        };
        Ok(waited)
    }

    fn next(&mut self) -> Result<Option<Asked>, Fault> {
        self.group.take(now_of(self.rt));
        // A question is taken only where there is room for its ticket.
        if self.waiting.len() >= self.waiting.capacity() {
            return Ok(None);
        }
        match self.leader.next(self.rt) {
            Some(ask) => {
                let (asked, taken) = take(ask);
                note_work(&self.doubts, &asked.work);
                self.waiting.push_back_reserved(taken);
                Ok(Some(asked))
            }
            None => Ok(None),
        }
    }

    fn tell(&mut self, asked: Asked, answer: Answer) -> Result<(), Fault> {
        self.group
            .tell(now_of(self.rt), is_committed(&asked.work, &answer));
        note_refusal(&self.board, &answer);
        note_number(&self.board, &answer);
        match self.waiting.pop_front() {
            Some(taken) => self.put(taken, answer),
            None => unreachable!(),
        }
        Ok(())
    }

    // `tell` has woken the askers.
    fn end_group(&mut self) -> Result<(), Fault> {
        if let Some((committed, forced)) = self.group.end() {
            self.board.note_group(committed, forced);
        }
        Ok(())
    }
}

/// The time by a clock, 0 if it cannot be read.
fn now_of<C: Clock>(clock: &C) -> Duration {
    match clock.monotonic() {
        Ok(now) => now,
        Err(_) => Duration::ZERO,
    }
}

/// Whether an answer says that the work committed a transaction.
fn is_committed(work: &Work, answer: &Answer) -> bool {
    match answer {
        Answer::Committed(_) => true,
        Answer::Decided(_) => matches!(
            work,
            Work::Decide {
                verdict: Decision::Commit,
                ..
            }
        ),
        _ => false,
    }
}

/// Notes that transactions in doubt may come or go by this work.
fn note_work(doubts: &Doubts, work: &Work) {
    if !matches!(work, Work::Commit(_)) {
        doubts.note();
    }
}

/// Adds an answer to what the board shows of refusals, if it is one.
fn note_refusal(board: &Board, answer: &Answer) {
    match answer {
        Answer::Refused(refusal) => board.note_refusal(number_of(refusal.fault())),
        Answer::NotDecided(why) => board.note_refusal(number_of(why.fault())),
        Answer::Withheld => board.note_refusal(None),
        _ => {}
    }
}

/// Shows the number of a transaction that is in the log on the board: each is greater than those before.
fn note_number(board: &Board, answer: &Answer) {
    match answer {
        Answer::Committed(written) | Answer::Prepared(written) => board.note_number(written.trans),
        _ => {}
    }
}

/// The number of a fault. None: there is no fault.
fn number_of(fault: Option<EngineFault>) -> Option<u64> {
    Some(u64::from(fault?.kind().number()))
}

/// A question as work for the leader: its seat is the number of its place.
fn take<J: Naming>(ask: Ask<Question<Work, J>>) -> (Asked, Taken<J>)
    ensures asked { result.0 ≡ asked_by result.1.place result.1.ticket.question.value }
    ensures place { result.1.place ≡ ask.place }
    ensures work { result.0.work ≡ ask.question.value }
{
    let place = ask.place;
    let (work, ticket) = ask.question.into_parts();
    let seat = place.number();
    (Asked { seat, work }, Taken { place, ticket })
}
