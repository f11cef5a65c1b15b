ghost use Rattle.als_lead.specs.Account.{taken_of, told_of};

use als_lead::{Account, Answer, Asked, Clients, Waited};
use als_operate::Fault;
use als_record::{ImageView, KeptImage, Key};
use als_writer::{Set, Transaction, Work};
use std::alloc::{AllocError, Global};

/// The pages of the database.
pub const PAGES: u8 = 4;

/// Transactions, one a group: the one with a number writes that byte, to a key of its own.
#[derive(Drop)]
pub struct Numbered {
    pub alloc: Global,
    /// The number of the next one.
    pub next: u8,
    /// That of the last one, and 1.
    pub end: u8,
    /// So many were answered as committed.
    pub committed: u8,
    /// Nothing was asked since the leader waited last.
    pub is_waited: bool,
    pub account: Account,
}

impl Numbered {
    /// Those with numbers from 0 on. Nobody has asked for any of them.
    pub fn new(alloc: Global) -> Numbered {
        Numbered {
            alloc,
            next: 0,
            end: 0,
            committed: 0,
            is_waited: false,
            account: Account::Nothing,
        }
    }
}

/// The key that a transaction writes: another one each time, up to 60.
fn key_of(number: u8) -> Key {
    Key {
        page: u32::from(number % PAGES),
        slot: number / PAGES % 15,
    }
}

/// What the one with a number asks for.
fn work_of(alloc: Global, number: u8) -> Result<Work, AllocError> {
    let image = KeptImage::of(&ImageView {
        bytes: Some(&[number]),
    });
    let mut sets = Vec::new(alloc);
    sets.push(Set {
        key: key_of(number),
        image,
    })?;
    Ok(Work::Commit(Transaction {
        asks: Vec::new(alloc),
        sets,
    }))
}

impl Clients for Numbered {
    ghost taken = { λ numbered. taken_of numbered.account };

    ghost told = { λ numbered. told_of numbered.account };

    // The test compares what it is told.
    ghost may_tell = { λ asked answer. Unit {0} };

    fn wait(&mut self) -> Result<Waited, Fault> {
        self.is_waited = true;
        if self.next < self.end {
            Ok(Waited::Asks)
        } else {
            Ok(Waited::Closed)
        }
    }

    fn next(&mut self) -> Result<Option<Asked>, Fault> {
        if !self.is_waited || self.next >= self.end {
            return Ok(None);
        }
        let asked = Asked {
            seat: u64::from(self.next),
            work: work_of(self.alloc, self.next)?,
        };
        self.is_waited = false;
        self.next = self.next.saturating_add(1);
        self.account.take(&asked);
        Ok(Some(asked))
    }

    fn tell(&mut self, asked: Asked, answer: Answer) -> Result<(), Fault> {
        if matches!(answer, Answer::Committed(_)) {
            self.committed = self.committed.saturating_add(1);
        }
        self.account.tell(&asked, answer);
        Ok(())
    }

    fn end_group(&mut self) -> Result<(), Fault> {
        Ok(())
    }
}
