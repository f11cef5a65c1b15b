ghost use Rattle.std.specs.Prelude.{◌≡◌, max};

use crate::ledgers::{Floor, Ledgers};
use als_record::Lsn;
use std::marker::Model;
use std::sync::ledger::{Book, Share};

/// What acknowledges a shared engine's log for a session: the greatest LSN that it answered. Its
/// ledger has one part, which it holds, so nobody else raises the book.
pub struct Acknowledger<L: Ledgers> {
    part: Share<Floor<L>>,
    greatest: u64,
}

impl<L: Ledgers> Model for Acknowledger<L> {
    ghost use Rattle.std.specs.Prelude.{◌≡◌, ℕ};

    ghost Value = { ℕ };

    ghost view = { λ a. a.greatest };

    ghost invariant = { λ a. (a.part.parts ≡ 1) × (a.part.amount ≡ a.greatest) };
}

// Written out: a derived drop is proved wherever an acknowledger is dropped, this one only here.
impl<L: Ledgers> Drop for Acknowledger<L> {
    fn drop(self) {
        let Acknowledger {
            part: _,
            greatest: _,
        } = self;
    }
}

impl<L: Ledgers> Acknowledger<L> {
    /// One that has answered nothing.
    pub(crate) fn new(part: Share<Floor<L>>) -> Acknowledger<L>
        requires { (part.parts ≡ 1) × (part.amount ≡ 0) }
        ensures { result ≡ 0 }
    {
        Acknowledger { part, greatest: 0 }
    }

    /// Notes an answer, here and in the book.
    pub(crate) fn note(&mut self, book: &mut Book<Floor<L>>, answer: Lsn)
        ensures mine { self.new ≡ max self.old answer.0 }
        ensures book { book.new.total ≡ max book.old.total answer.0 }
    {
        self.audit(book);
        if self.greatest < answer.0 {
            book.add(&mut self.part, answer.0 - self.greatest);
            self.greatest = answer.0;
        }
    }

    /// Changes nothing. The book says what it answered.
    pub(crate) fn audit(&mut self, book: &mut Book<Floor<L>>)
        ensures same { (self.new ≡ self.old) × (book.new.total ≡ book.old.total) }
        ensures book { book.old.total ≡ self.old }
    {
        book.audit(&mut self.part);
    }
}
