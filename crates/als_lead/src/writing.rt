ghost use Rattle.std.specs.Prelude.{◌≡◌};
ghost use Rattle.als_writer.specs.Changes.{AreBounds};
ghost use Rattle.als_writer.specs.declared.work.Work.TheVariants as work_of;
ghost use Rattle.als_lead.specs.Groups.{Does, IsNotBegun, IsUnwritten, IsUndecided};
ghost use Rattle.als_lead.specs.Confirming.{IsTried};

use crate::answer::Answer;
use als_engine::{Decision, Fault as EngineFault, Writes};
use als_record::TransId;
use als_writer::{Changes, NotDecided, Refusal, Transaction, Work, decide, prepare, tidy, write};
use std::alloc::Global;

/// Does what a client asks for, after what an earlier work owes to the log is written. What is written is
/// `Unknown` until a force. Memory, with nothing owed: what is owed could not be written, and nothing of
/// this work was begun.
pub(crate) fn write_tidily<E: Writes>(
    alloc: Global,
    engine: &mut E,
    changes: &mut Changes,
    work: &Work,
) -> Answer
    requires bounded { E.alone → AreBounds changes.old (E.machine engine.old).held.pages
        (E.machine engine.old).held.log }
    ensures does { E.alone → Does (E.machine engine.old) work.now result (E.machine engine.new) }
    ensures tried { IsTried result }
    ensures bounds { E.alone → AreBounds changes.new (E.machine engine.new).held.pages
        (E.machine engine.new).held.log }
    ensures book { E.book engine.new ≡ E.book engine.old }
{
    match write_once(alloc, engine, changes, work) {
        Answer::Refused(Refusal::Untidy) => write_again(alloc, engine, changes, work),
        Answer::NotDecided(NotDecided::Untidy) => write_again(alloc, engine, changes, work),
        answer => answer,
    }
}

/// Writes what is owed, and then does what is asked for.
fn write_again<E: Writes>(
    alloc: Global,
    engine: &mut E,
    changes: &mut Changes,
    work: &Work,
) -> Answer
    requires bounded { E.alone → AreBounds changes.old (E.machine engine.old).held.pages
        (E.machine engine.old).held.log }
    ensures does { E.alone → Does (E.machine engine.old) work.now result (E.machine engine.new) }
    ensures tried { IsTried result }
    ensures bounds { E.alone → AreBounds changes.new (E.machine engine.new).held.pages
        (E.machine engine.new).held.log }
    ensures book { E.book engine.new ≡ E.book engine.old }
{
    match tidy(alloc, engine) {
        Ok(()) => write_once(alloc, engine, changes, work),
        Err(refusal) => not_begun(work, refusal),
    }
}

/// Does what a client asks for, in a log that is owed nothing.
fn write_once<E: Writes>(
    alloc: Global,
    engine: &mut E,
    changes: &mut Changes,
    work: &Work,
) -> Answer
    requires bounded { E.alone → AreBounds changes.old (E.machine engine.old).held.pages
        (E.machine engine.old).held.log }
    ensures does { E.alone → Does (E.machine engine.old) work.now result (E.machine engine.new) }
    ensures tried { IsTried result }
    ensures bounds { E.alone → AreBounds changes.new (E.machine engine.new).held.pages
        (E.machine engine.new).held.log }
    ensures book { E.book engine.new ≡ E.book engine.old }
{
    match work {
        Work::Commit(transaction) => commit_once(alloc, engine, changes, transaction),
        Work::Prepare(transaction) => prepare_once(alloc, engine, changes, transaction),
        Work::Decide { trans, verdict } => decide_once(alloc, engine, changes, *trans, *verdict),
    }
}

/// Writes a transaction that commits.
fn commit_once<E: Writes>(
    alloc: Global,
    engine: &mut E,
    changes: &mut Changes,
    transaction: &Transaction,
) -> Answer
    requires bounded { E.alone → AreBounds changes.old (E.machine engine.old).held.pages
        (E.machine engine.old).held.log }
    ensures does { E.alone → Does (E.machine engine.old) (work_of.Commit transaction.now) result
        (E.machine engine.new) }
    ensures tried { IsTried result }
    ensures bounds { E.alone → AreBounds changes.new (E.machine engine.new).held.pages
        (E.machine engine.new).held.log }
    ensures book { E.book engine.new ≡ E.book engine.old }
{
    match write(alloc, engine, changes, transaction) {
        Ok(written) => Answer::Unknown(written),
        Err(refusal) => Answer::Refused(refusal),
    }
}

/// Writes a transaction that prepares.
fn prepare_once<E: Writes>(
    alloc: Global,
    engine: &mut E,
    changes: &Changes,
    transaction: &Transaction,
) -> Answer
    requires bounded { E.alone → AreBounds changes.now (E.machine engine.old).held.pages
        (E.machine engine.old).held.log }
    ensures does { E.alone → Does (E.machine engine.old) (work_of.Prepare transaction.now) result
        (E.machine engine.new) }
    ensures tried { IsTried result }
    ensures bounds { E.alone → AreBounds changes.now (E.machine engine.new).held.pages
        (E.machine engine.new).held.log }
    ensures book { E.book engine.new ≡ E.book engine.old }
{
    match prepare(alloc, engine, changes, transaction) {
        Ok(prepared) => Answer::Unknown(prepared),
        Err(refusal) => Answer::Refused(refusal),
    }
}

/// Decides a transaction in doubt.
fn decide_once<E: Writes>(
    alloc: Global,
    engine: &mut E,
    changes: &mut Changes,
    trans: TransId,
    verdict: Decision,
) -> Answer
    requires bounded { E.alone → AreBounds changes.old (E.machine engine.old).held.pages
        (E.machine engine.old).held.log }
    ensures does { E.alone → Does (E.machine engine.old) (work_of.Decide trans verdict) result
        (E.machine engine.new) }
    ensures tried { IsTried result }
    ensures bounds { E.alone → AreBounds changes.new (E.machine engine.new).held.pages
        (E.machine engine.new).held.log }
    ensures book { E.book engine.new ≡ E.book engine.old }
{
    match decide(alloc, engine, changes, trans, verdict) {
        Ok(decided) => Answer::Unknown(decided),
        Err(reason) => Answer::NotDecided(reason),
    }
}

/// The answer to a work that is not begun, because what is owed could not be written.
fn not_begun(work: &Work, refusal: Refusal) -> Answer
    ensures not { IsNotBegun work.now result }
    ensures tried { IsTried result }
{
    match work {
        Work::Commit(_) => Answer::Refused(not_written(refusal)),
        Work::Prepare(_) => Answer::Refused(not_written(refusal)),
        Work::Decide { .. } => Answer::NotDecided(not_decided(refusal)),
    }
}

/// The refusal of a transaction that is not begun.
fn not_written(refusal: Refusal) -> Refusal
    ensures { IsUnwritten result }
{
    match refusal {
        Refusal::Memory { .. } => Refusal::Memory { owed: false },
        Refusal::State(fault) | Refusal::Unplanned(fault) => Refusal::State(fault),
        _ => Refusal::State(EngineFault::NotDrained),
    }
}

/// The reason for which a decision is not begun.
fn not_decided(refusal: Refusal) -> NotDecided
    ensures { IsUndecided result }
{
    match refusal {
        Refusal::Memory { .. } => NotDecided::Memory,
        Refusal::State(fault) | Refusal::Unplanned(fault) => NotDecided::State(fault),
        _ => NotDecided::State(EngineFault::NotDrained),
    }
}
