ghost use Rattle.std.specs.Prelude.{◌≡◌};

use crate::answered::Answered;
use crate::asker::Asker;
use crate::book::{Naming, Opened};
use crate::leader::Leader;
use crate::numbers::Numbers;
use crate::oath::Oath;
use crate::question::Question;
use std::alloc::{AllocError, Global};
use std::sync::Arc;

/// Makes a leader and `count` askers, each with a seat of its own, over a book with no question.
pub fn seats<T: Drop, A: Drop, O: Oath<T, A>, J: Naming>(
    alloc: Global,
    count: u32,
    opened: Opened<T>,
) -> Result<(Leader<T, A, O, J>, Vec<Asker<T, A, O, J>>), AllocError>
    requires { opened.seen.book ≡ J.book }
{
    let (book, front) = opened.named::<J>();
    let numbers = Arc::new(alloc, Numbers::new(book, front))?;
    let (leader, askers) = als_seats::seats::<Question<T, J>, Answered<T, A, O, J>>(alloc, count)?;
    let mut owed = Vec::with_capacity(alloc, count as usize)?;
    for asker in askers {
        owed.push(Asker {
            asker,
            numbers: Arc::try_clone(&numbers)?,
        })?;
    }
    Ok((Leader { leader }, owed))
}
