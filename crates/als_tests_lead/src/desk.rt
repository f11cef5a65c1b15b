ghost use Rattle.als_lead.specs.Account.{taken_of, told_of};

use als_lead::{Account, Answer, Asked, Clients, Waited};
use als_operate::Fault;
use als_writer::{NotDecided, Refusal};
use std::collections::VecDeque;

/// What a test compares of an answer.
#[derive(Clone, Copy, PartialEq, Eq)]
pub enum Seen {
    Committed,
    /// With the number of the transaction.
    Prepared(u32),
    Decided(u32),
    NotInDoubt,
    /// The engine takes no decision any more.
    NotDecided,
    Unknown,
    /// A key is held by the transaction of this number.
    Held(u32),
    NotAsAsked,
    LogFull,
    Invalid,
    State,
    Withheld,
    Other,
}

/// Clients that ask for transactions and decisions, each as soon as the leader takes one, and note what
/// they are answered.
#[derive(Drop)]
pub struct Desk {
    pub asks: VecDeque<Asked>,
    /// How often the leader may wait before they close.
    pub waits: u32,
    /// The seats that were answered, in order.
    pub seen: Vec<(u64, Seen)>,
    /// How many groups were answered.
    pub groups: u32,
    pub account: Account,
}

impl Clients for Desk {
    ghost taken = { λ desk. taken_of desk.account };

    ghost told = { λ desk. told_of desk.account };

    // A test compares what it is told.
    ghost may_tell = { λ asked answer. Unit {0} };

    fn wait(&mut self) -> Result<Waited, Fault> {
        if self.asks.is_empty() || self.waits == 0 {
            return Ok(Waited::Closed);
        }
        self.waits -= 1;
        Ok(Waited::Asks)
    }

    fn next(&mut self) -> Result<Option<Asked>, Fault> {
        match self.asks.pop_front() {
            Some(asked) => {
                self.account.take(&asked);
                Ok(Some(asked))
            }
            None => Ok(None),
        }
    }

    fn tell(&mut self, asked: Asked, answer: Answer) -> Result<(), Fault> {
        let seen = shown(&answer);
        self.account.tell(&asked, answer);
        match self.seen.push((asked.seat, seen)) {
            Ok(()) => Ok(()),
            Err(_) => Err(Fault::Memory),
        }
    }

    fn end_group(&mut self) -> Result<(), Fault> {
        self.groups = self.groups.saturating_add(1);
        Ok(())
    }
}

/// What a test compares of it.
fn shown(answer: &Answer) -> Seen {
    match answer {
        Answer::Committed(_) => Seen::Committed,
        Answer::Prepared(written) => Seen::Prepared(written.trans.0),
        Answer::Decided(written) => Seen::Decided(written.trans.0),
        Answer::NotDecided(NotDecided::NotInDoubt) => Seen::NotInDoubt,
        Answer::NotDecided(NotDecided::State(_)) => Seen::NotDecided,
        Answer::NotDecided(_) => Seen::Other,
        Answer::Unknown(_) => Seen::Unknown,
        Answer::Withheld => Seen::Withheld,
        Answer::Refused(Refusal::NotAsAsked { .. }) => Seen::NotAsAsked,
        Answer::Refused(Refusal::Held { by, .. }) => Seen::Held(by.0),
        Answer::Refused(Refusal::LogFull) => Seen::LogFull,
        Answer::Refused(Refusal::Invalid(_)) => Seen::Invalid,
        Answer::Refused(Refusal::State(_)) => Seen::State,
        Answer::Refused(_) => Seen::Other,
    }
}
