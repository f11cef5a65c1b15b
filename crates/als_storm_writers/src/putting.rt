use crate::book::Book;
use crate::deed::Deed;
use crate::stop::Stop;
use crate::transfers::Rolled;
use als_engine::Writes;
use als_writer::{Changes, Refusal, Transaction, Written, prepare, tidy, write};
use std::alloc::Global;

/// Writes or prepares a transaction, and notes it where it was answered so. One that is refused leaves
/// nothing. What the one before left to be written comes first.
pub fn put<E: Writes>(
    alloc: Global,
    engine: &mut E,
    changes: &mut Changes,
    book: &mut Book,
    rolled: Rolled,
    prepares: bool,
) -> Result<(), Stop> {
    let Rolled {
        transaction,
        holds,
        holder,
    } = rolled;
    book.reserve()?;
    let answer = match ask(alloc, engine, changes, &transaction, prepares) {
        Err(Refusal::Untidy) => {
            tidied(alloc, engine)?;
            ask(alloc, engine, changes, &transaction, prepares)
        }
        answer => answer,
    };
    match answer {
        Ok(written) if holds && holder.is_none() => {
            book.note(deed_of(transaction, prepares), written)
        }
        Ok(_) => Err(Stop::Lost("a transaction that is to be refused is written")),
        Err(Refusal::Held { by, .. }) if holder == Some(by) => Ok(()),
        Err(Refusal::NotAsAsked { .. }) if !holds && holder.is_none() => Ok(()),
        Err(Refusal::Memory { .. }) => tidied(alloc, engine),
        Err(Refusal::State(fault) | Refusal::Unplanned(fault)) => Err(Stop::from(fault)),
        Err(_) => Err(Stop::Lost("a transaction is refused")),
    }
}

/// Asks for a commit or a prepare.
fn ask<E: Writes>(
    alloc: Global,
    engine: &mut E,
    changes: &mut Changes,
    transaction: &Transaction,
    prepares: bool,
) -> Result<Written, Refusal> {
    if prepares {
        prepare(alloc, engine, changes, transaction)
    } else {
        write(alloc, engine, changes, transaction)
    }
}

fn deed_of(transaction: Transaction, prepares: bool) -> Deed {
    if prepares {
        Deed::Prepared(transaction)
    } else {
        Deed::Committed(transaction)
    }
}

/// Writes what is owed to the log. Want of memory is met once.
pub fn tidied<E: Writes>(alloc: Global, engine: &mut E) -> Result<(), Stop> {
    for _ in 0..2 {
        match tidy(alloc, engine) {
            Ok(()) => return Ok(()),
            Err(Refusal::Memory { .. }) => {}
            Err(Refusal::State(fault) | Refusal::Unplanned(fault)) => return Err(Stop::from(fault)),
            Err(_) => return Err(Stop::Lost("what is owed is refused")),
        }
    }
    Err(Stop::Memory)
}
