ghost use Rattle.std.specs.Prelude.{◌≡◌};

use crate::book::Naming;
use crate::ticket::Ticket;

/// A question with its ticket.
pub struct Question<T, J: Naming> {
    pub value: T,
    pub(crate) ticket: Ticket<T, J>,
    ghost is_of: { ticket.question.value ≡ value },
}

impl<T: Drop, J: Naming> Drop for Question<T, J> {
    fn drop(self) {
        let Question { value, ticket } = self;
        drop(value);
        drop(ticket);
    }
}

impl<T: Drop, J: Naming> Question<T, J> {
    /// A question with this ticket.
    pub(crate) fn new(value: T, ticket: Ticket<T, J>) -> Question<T, J>
        requires { ticket.question.value ≡ value }
    {
        Question { value, ticket }
    }

    /// The question and its ticket.
    pub fn into_parts(self) -> (T, Ticket<T, J>)
        ensures value { result.0 ≡ self.value }
        ensures ticket { result.1.question.value ≡ self.value }
    {
        let Question { value, ticket } = self;
        (value, ticket)
    }
}
