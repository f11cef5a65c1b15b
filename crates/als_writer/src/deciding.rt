ghost use Rattle.std.specs.Prelude.{◌≡◌, false, IfOk, IfErr, OnOk, OnErr, MatchOption};
ghost use Rattle.std.specs.List.{list_any};
ghost use Rattle.als_record.specs.declared.trans_id.TransId.{TransId as AnyTrans};
ghost use Rattle.als_engine.specs.Machine.{Machine, Keeps};
ghost use Rattle.als_store.specs.Takeover.{decision_body};
ghost use Rattle.als_writer.specs.Changes.{AreBounds};
ghost use Rattle.als_writer.specs.Feeding.{NextRefused};
ghost use Rattle.als_writer.specs.Planning.{IsTidy};
ghost use Rattle.als_writer.specs.Refused.{TidyRefused};
ghost use Rattle.als_writer.specs.Deciding.{doubts_it, IsRowOf, IsDecision, IsDecided, AddsOwed};
ghost use Rattle.als_writer.specs.Deciding.{Decides, DecisionRefused};

use crate::changes::Changes;
use crate::next::feed_record;
use crate::not_decided::NotDecided;
use crate::planning::check_tidy;
use crate::refusal::Refusal;
use crate::tidying::tidy;
use crate::written::Written;
use als_engine::{Decision, Writes};
use als_record::{Body, Record, TransId, TransactionRow, TransactionState};
use std::alloc::Global;

/// Commits or rolls back a transaction in doubt: the record that says so, and then what that leaves,
/// the end or the compensations and the end. It is decided once the log is acknowledged to the end of
/// that record. What is not appended for want of memory is owed, and `tidy` appends it. The reserve
/// has the room for all of it.
pub fn decide<E: Writes>(
    alloc: Global,
    engine: &mut E,
    changes: &mut Changes,
    trans: TransId,
    verdict: Decision,
) -> Result<Written, NotDecided>
    // The transaction was in doubt. The log is the old one, the record that decides it, and what that
    // leaves. A commit adds its commit, with what it wrote; a rollback adds none.
    ensures done { IfOk result (λ w. E.alone
        → Decides (E.machine engine.old) trans verdict w (E.machine engine.new)) }
    ensures refused { IfErr result (λ r. E.alone
        → DecisionRefused (E.machine engine.old) trans r) }
    ensures same { OnErr result (E.alone → E.machine engine.new ≡ E.machine engine.old) }
    ensures bounds { E.alone
        → AreBounds changes.old (E.machine engine.old).held.pages (E.machine engine.old).held.log
        → AreBounds changes.new (E.machine engine.new).held.pages (E.machine engine.new).held.log }
    ensures keeps { E.alone → Keeps (E.machine engine.old) (E.machine engine.new) }
    ensures book { E.book engine.new ≡ E.book engine.old }
{
    let written = hold_decision(alloc, engine, trans, verdict)?;
    changes.note_decision(verdict, written.lsn);
    finish_decision(alloc, engine);
    Ok(written)
}

/// Feeds the record that decides a transaction.
#[tactic(auto, using(als_engine::proofs::KeepLaws::keeps_equal))]
fn hold_decision<E: Writes>(
    alloc: Global,
    engine: &mut E,
    trans: TransId,
    verdict: Decision,
) -> Result<Written, NotDecided>
    ensures done { IfOk result (λ w. E.alone
        → IsDecided (E.machine engine.old) trans verdict w (E.machine engine.new)) }
    ensures refused { IfErr result (λ r. E.alone
        → DecisionRefused (E.machine engine.old) trans r) }
    ensures same { OnErr result (E.alone → E.machine engine.new ≡ E.machine engine.old) }
    ensures keeps { E.alone → Keeps (E.machine engine.old) (E.machine engine.new) }
    ensures book { E.book engine.new ≡ E.book engine.old }
{
    let made = plan_decision(alloc, &*engine, trans, verdict)?;
    match feed_record(alloc, engine, &made) {
        Ok(()) => Ok(Written {
            trans,
            lsn: made.lsn,
            end: engine.status().end,
        }),
        Err(refusal) => Err(not_fed(refusal)),
    }
}

/// Appends what a decision leaves, all of it or a front for want of memory.
fn finish_decision<E: Writes>(alloc: Global, engine: &mut E)
    ensures rest { E.alone → AddsOwed (E.machine engine.old) (E.machine engine.new) }
    ensures keeps { E.alone → Keeps (E.machine engine.old) (E.machine engine.new) }
    ensures book { E.book engine.new ≡ E.book engine.old }
{
    match tidy(alloc, engine) {
        Ok(()) => {}
        Err(_) => {}
    }
}

/// The record that decides a transaction, where that is in doubt. Nothing has changed, whatever comes
/// of it.
fn plan_decision<E: Writes>(
    alloc: Global,
    engine: &E,
    trans: TransId,
    verdict: Decision,
) -> Result<Record, NotDecided>
    ensures planned { IfOk result (λ r. E.alone
        → IsDecision (E.machine engine.now) trans verdict r) }
    ensures refused { IfErr result (λ r. E.alone
        → DecisionRefused (E.machine engine.now) trans r) }
{
    check_decidable(engine)?;
    let rows = match engine.table(alloc) {
        Ok(rows) => rows,
        Err(_) => return Err(NotDecided::Memory),
    };
    match find_doubt(&rows, trans) {
        None => Err(NotDecided::NotInDoubt),
        Some(row) => Ok(Record {
            lsn: engine.status().end,
            prev: row.last,
            trans,
            body: body_of(verdict),
        }),
    }
}

/// Whether nothing is owed to the log and no part of a record waits.
fn check_decidable<E: Writes>(engine: &E) -> Result<(), NotDecided>
    ensures tidy { OnOk result (E.alone → IsTidy (E.machine engine.now)) }
    ensures refused { IfErr result (λ r. E.alone → (t : AnyTrans)
        → DecisionRefused (E.machine engine.now) t r) }
{
    match check_tidy(engine) {
        Ok(()) => Ok(()),
        Err(refusal) => Err(not_tidy(refusal)),
    }
}

/// What the record of a decision says.
fn body_of(verdict: Decision) -> Body
    ensures { result ≡ decision_body verdict }
{
    match verdict {
        Decision::Commit => Body::Commit,
        Decision::Rollback => Body::Rollback,
    }
}

/// The row of a transaction in doubt.
fn find_doubt(rows: &[TransactionRow], trans: TransId) -> Option<TransactionRow>
    ensures { MatchOption result (list_any (doubts_it trans) rows.now ≡ false)
        (λ row. IsRowOf rows.now trans row) }
{
    for row in rows {
        let row = *row;
        if is_doubt(row, trans) {
            return Some(row);
        }
    }
    None
}

/// Whether a row says that the transaction is in doubt.
fn is_doubt(row: TransactionRow, trans: TransId) -> bool
    ensures { result ≡ doubts_it trans row }
{
    row.trans.0 == trans.0 && matches!(row.state, TransactionState::Prepared)
}

/// Why a log that is not tidy takes no decision.
fn not_tidy(refusal: Refusal) -> NotDecided
    ensures { (m : Machine) → (t : AnyTrans) → TidyRefused m refusal → DecisionRefused m t result }
{
    match refusal {
        Refusal::State(fault) => NotDecided::State(fault),
        _ => NotDecided::Untidy,
    }
}

/// Why the record of a decision is not held.
fn not_fed(refusal: Refusal) -> NotDecided
    ensures { (m : Machine) → (t : AnyTrans) → NextRefused m refusal → DecisionRefused m t result }
{
    match refusal {
        Refusal::State(fault) => NotDecided::State(fault),
        _ => NotDecided::Memory,
    }
}
