use crate::book::Book;
use crate::deed::Deed;
use crate::putting::tidied;
use crate::stop::Stop;
use als_engine::{Decision, Fault, Writes};
use als_record::{Body, Lsn, Record, TransId, encode};
use als_sample_logs::Dice;
use als_writer::{Changes, NotDecided, decide};
use std::alloc::Global;

/// Decides the first transaction in doubt, and notes it where it was answered so. At times a part of a
/// record waits in front of it. Then neither it nor a transaction without records is in doubt.
pub fn decide_one<E: Writes>(
    alloc: Global,
    engine: &mut E,
    changes: &mut Changes,
    book: &mut Book,
    dice: &mut Dice,
) -> Result<(), Stop> {
    let Some(trans) = book.doubt() else {
        return Ok(());
    };
    let verdict = if dice.below(2) == 0 {
        Decision::Commit
    } else {
        Decision::Rollback
    };
    if dice.below(4) == 0 {
        feed_part(alloc, engine, trans)?;
    }
    book.reserve()?;
    let answer = match decide(alloc, engine, changes, trans, verdict) {
        Err(NotDecided::Untidy) => {
            tidied(alloc, engine)?;
            decide(alloc, engine, changes, trans, verdict)
        }
        answer => answer,
    };
    match answer {
        Ok(written) if written.trans == trans => {
            book.note(Deed::Decided(verdict), written)?;
            refuse(alloc, engine, changes, trans)?;
            let next = engine.writing().greatest.0.saturating_add(1);
            refuse(alloc, engine, changes, TransId(next))
        }
        Ok(_) => Err(Stop::Lost("another transaction is decided")),
        Err(NotDecided::Memory) => Ok(()),
        Err(NotDecided::State(fault)) => Err(Stop::from(fault)),
        Err(NotDecided::Untidy | NotDecided::NotInDoubt) => {
            Err(Stop::Lost("a transaction in doubt is not decided"))
        }
    }
}

/// A transaction that is not in doubt is not decided, and nothing changes.
fn refuse<E: Writes>(
    alloc: Global,
    engine: &mut E,
    changes: &mut Changes,
    trans: TransId,
) -> Result<(), Stop> {
    let end = engine.status().end;
    match decide(alloc, engine, changes, trans, Decision::Commit) {
        Err(NotDecided::NotInDoubt | NotDecided::Untidy | NotDecided::Memory) => {}
        Err(NotDecided::State(fault)) => return Err(Stop::from(fault)),
        Ok(_) => return Err(Stop::Lost("a transaction that is not in doubt is decided")),
    }
    if engine.status().end != end {
        return Err(Stop::Lost("a decision that is refused leaves something"));
    }
    Ok(())
}

/// Feeds the first bytes of a record, behind which nothing is decided.
fn feed_part<E: Writes>(alloc: Global, engine: &mut E, trans: TransId) -> Result<(), Stop> {
    let mut piece = Vec::new(alloc);
    let logged = Record {
        lsn: engine.status().end,
        prev: Lsn(0),
        trans,
        body: Body::Rollback,
    };
    if encode(&logged, &mut piece).is_err() {
        return Err(Stop::Memory);
    }
    match engine.feed(piece.get(..9).unwrap_or(&[])) {
        Ok(_) => Ok(()),
        Err(refusal) if matches!(refusal.fault, Fault::Memory) => Ok(()),
        Err(refusal) => Err(Stop::from(refusal.fault)),
    }
}
