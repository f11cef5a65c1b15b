ghost use Rattle.std.specs.Prelude.{◌≡◌, map, IfOk};

use crate::book::{Book, Front, Naming};
use crate::question::Question;
use crate::ticket::Ticket;
use std::alloc::{AllocError, Global};
use std::sync::{Mutex, Wait};

/// Most questions of a book.
const MOST: u64 = 1 << 61;

/// The book of all questions, and how far it is known.
pub(crate) struct Numbers<T, J: Naming> {
    front: Mutex<Front<T, J>>,
    book: Book<T, J>,
}

impl<T, J: Naming> Drop for Numbers<T, J> {
    fn drop(self) {
        let Numbers { front, book } = self;
        drop(front);
        drop(book);
    }
}

/// Questions with their numbers, and the tickets that their asker keeps.
pub(crate) struct Numbered<T, J: Naming> {
    pub questions: Vec<Question<T, J>>,
    pub tickets: Vec<Ticket<T, J>>,
}

impl<T: Drop, J: Naming> Drop for Numbered<T, J> {
    fn drop(self) {
        let Numbered { questions, tickets } = self;
        drop(questions);
        drop(tickets);
    }
}

impl<T: Drop, J: Naming> Numbered<T, J> {
    /// The questions and the tickets.
    pub fn into_parts(self) -> (Vec<Question<T, J>>, Vec<Ticket<T, J>>)
        ensures { result.1 ≡ self.tickets }
    {
        let Numbered { questions, tickets } = self;
        (questions, tickets)
    }
}

impl<T: Drop, J: Naming> Numbers<T, J> {
    /// The numbers of a book with no question.
    pub fn new(book: Book<T, J>, front: Front<T, J>) -> Numbers<T, J> {
        Numbers {
            front: Mutex::new(front),
            book,
        }
    }

    /// Gives each question its number. Err: no memory, or the book has 2^61 questions.
    pub fn number<R: Wait>(
        &self,
        rt: &R,
        alloc: Global,
        questions: Vec<T>,
    ) -> Result<Numbered<T, J>, AllocError>
        ensures { IfOk result (λ n. map (λ t. t.question.value) n.tickets.items
            ≡ questions.items) }
    {
        let mut front = self.front.lock(rt);
        number_all(alloc, &self.book, &mut *front, questions)
    }
}

/// Gives each question its number. Err: no memory, or the book is full.
fn number_all<T: Drop, J: Naming>(
    alloc: Global,
    book: &Book<T, J>,
    front: &mut Front<T, J>,
    questions: Vec<T>,
) -> Result<Numbered<T, J>, AllocError>
    ensures { IfOk result (λ n. map (λ t. t.question.value) n.tickets.items ≡ questions.items) }
{
    let mut asked = Vec::with_capacity(alloc, questions.len())?;
    let mut tickets = Vec::with_capacity(alloc, questions.len())?;
    for value in questions {
        let (question, ticket) = number_one(book, front, value)?;
        asked.push(question)?;
        tickets.push(ticket)?;
    }
    Ok(Numbered {
        questions: asked,
        tickets,
    })
}

/// Gives a question its number. Err: the book is full.
#[tactic(auto, using(crate::proofs::Fronts::get_last))]
fn number_one<T: Drop, J: Naming>(
    book: &Book<T, J>,
    front: &mut Front<T, J>,
    value: T,
) -> Result<(Question<T, J>, Ticket<T, J>), AllocError>
    ensures { IfOk result (λ made. made.1.question.value ≡ value) }
{
    let number = front.len();
    if number >= MOST || !front.add(book, &value) {
        return Err(AllocError);
    }
    let mine = Ticket::of(&*front, number, &value);
    let ticket = Ticket::of(&*front, number, &value);
    Ok((Question::new(value, ticket), mine))
}
