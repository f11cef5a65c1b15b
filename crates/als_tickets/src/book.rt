ghost use Rattle.std.specs.Prelude.{◌≡◌, ◌==◌, ◌<◌, ◌^◌, ◌++◌, ◌∷◌, [], length, true};
ghost use mathlib.Core.List.{IsPrefix};
ghost use Rattle.als_tickets.specs.Rules.{head_of};

use logbook::{Gain, Offer, Plain, Play, Rule, Seen, Start, Word};
use std::marker::{Brand, Model, PhantomData};

/// The rule of the book: its word is the number of the questions.
pub struct Law;

impl<T> Rule<T, u64> for Law {
    ghost use Rattle.std.specs.Prelude.{[]};
    ghost use base.Fml.{ftrue};
    ghost use Rattle.als_tickets.specs.Rules.{IsKept};

    ghost holds = { λ cells log. IsKept cells log };

    ghost first = { [] };

    ghost hinted = { λ n log. Unit {0} };

    ghost shows = { λ log. [] };

    ghost keeps = { λ names log. ftrue };

    ghost moves = { λ ask before after answer. Unit {0} };
}

/// Callers trade nothing.
pub struct Nothing;

impl<T> Gain<T, u64> for Nothing {
    ghost use base.Fml.{ftrue};

    ghost after = { λ names about answer. ftrue };
}

/// A step that adds a question.
pub struct Add;

impl<T> Play<T, u64> for Add {
    ghost use Rattle.als_tickets.specs.Rules.{Adds};

    ghost then = { Adds };
}

impl<T> Plain<T, T, u64> for Add {
    ghost use Rattle.std.specs.Prelude.{None};

    ghost ask = { λ question. question };

    ghost state = { λ question. None };
}

/// Which book it is. Each call of a program picks it.
pub trait Naming {
    ghost use Rattle.logbook.specs.Pages.{Book};

    ghost book: { Book };
}

impl Naming for Brand {
    ghost book = { record { number = 0; log_name = 0; cells_name = 0 } };
}

/// A book with no question, which has no name yet.
#[derive(Drop)]
pub struct Opened<T> {
    head: Word<T, u64, Law>,
    seen: Seen<T, u64, Law>,
    pub ghost empty: { seen.log ≡ [] },
    pub ghost head_is: { head ≡ head_of seen.book },
}

impl<T> Opened<T> {
    pub fn new() -> Opened<T> {
        let (seen, mut first, _second) = Seen::open(Start::alone(), 0, 0);
        Opened {
            head: Word::tracked(0, &mut first),
            seen,
        }
    }

    /// The book's word under a name, and the front that has seen nothing.
    pub fn named<J: Naming>(self) -> (Book<T, J>, Front<T, J>)
        requires { self.seen.book ≡ J.book }
        ensures { result.1 ≡ [] }
    {
        let Opened { head, seen } = self;
        (
            Book {
                head,
                of: PhantomData,
            },
            Front {
                count: 0,
                seen,
                of: PhantomData,
            },
        )
    }
}

/// The word: how many questions were ever asked.
#[derive(Drop)]
pub struct Book<T, J: Naming> {
    head: Word<T, u64, Law>,
    of: PhantomData<J>,
    ghost head_is: { head ≡ head_of J.book },
}

/// A beginning of the questions. Contracts see it as these.
#[derive(Drop)]
pub struct Front<T, J: Naming> {
    count: u64,
    pub(crate) seen: Seen<T, u64, Law>,
    of: PhantomData<J>,
}

impl<T, J: Naming> Model for Front<T, J> {
    ghost use Rattle.std.specs.Prelude.{◌≡◌, List, length};

    ghost Value = { List T };

    ghost view = { λ f. f.seen.log };

    ghost invariant = { λ f. (f.count ≡ length f.seen.log) × (f.seen.book ≡ J.book) };
}

impl<T, J: Naming> Front<T, J> {
    /// How many questions it has.
    pub fn len(&self) -> u64
        ensures length { result ≡ length self.now }
    {
        self.count
    }

    /// A copy.
    pub fn again(&self) -> Front<T, J>
        ensures { result ≡ self.now }
    {
        Front {
            count: self.count,
            seen: self.seen.again(),
            of: PhantomData,
        }
    }

    /// Adds a question to all that was seen, and says whether it did.
    pub fn add(&mut self, book: &Book<T, J>, question: &T) -> bool
        requires room { length self.old < 2 ^ 62 }
        ensures { result ≡ true → self.new ≡ self.old ++ question.now ∷ [] }
    {
        let mut offer: Offer<T, u64, Law, Nothing> = self.seen.plain::<Nothing, T, Add>(question);
        let mut pen = self.seen.no_pen();
        let count = self.count;
        let found = book
            .head
            .compare_exchange::<Add, Nothing>(
                count,
                count + 1,
                &mut self.seen,
                &mut offer,
                &mut pen,
            );
        self.count = if found == count { count + 1 } else { found };
        found == count
    }

    /// What this front has seen, for a ticket.
    pub(crate) fn token(&self) -> Seen<T, u64, Law>
        ensures log { result.log ≡ self.now }
        ensures book { result.book ≡ J.book }
    {
        self.seen.again()
    }
}
