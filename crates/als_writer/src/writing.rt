ghost use Rattle.std.specs.Prelude.{◌≡◌, IfOk, IfErr};
ghost use Rattle.als_engine.specs.Machine.{Keeps};
ghost use Rattle.als_writer.specs.Changes.{AreBounds};
ghost use Rattle.als_writer.specs.declared.closing.Closing.{Closing as AnyClosing};
ghost use Rattle.als_writer.specs.declared.closing.Closing.TheVariants as closing;
ghost use Rattle.als_writer.specs.Planning.{IsPlan};
ghost use Rattle.als_writer.specs.Committing.{Commits, NotWritten, IsInLog, FeedRefused};
ghost use Rattle.als_writer.specs.Preparing.{IsPrepared};
ghost use Rattle.als_writer.specs.Refused.{ShowsFailing, ShowsUnmet};

use crate::changes::Changes;
use crate::closing::Closing;
use crate::planning::{Plan, make_plan};
use crate::refusal::Refusal;
use crate::transaction::Transaction;
use crate::written::Written;
use als_engine::{Fault, Writes};
use std::alloc::Global;

/// Writes a transaction: where each ask holds, an update for each set, the commit and the end are in
/// the log, and durable once the log is acknowledged to their end. All that can be refused is
/// refused before anything is fed, but for want of memory in the middle.
#[tactic(auto, using(als_engine::proofs::KeepLaws::keeps_equal))]
pub fn write<E: Writes>(
    alloc: Global,
    engine: &mut E,
    changes: &mut Changes,
    transaction: &Transaction,
) -> Result<Written, Refusal>
    // Each ask held of the old log. The log is the old one and exactly this transaction, whose number
    // is one above the greatest, and its commits are the old ones and this one.
    ensures done { IfOk result (λ w. E.alone
        → AreBounds changes.old (E.machine engine.old).held.pages (E.machine engine.old).held.log
        → Commits (E.machine engine.old) transaction.now w (E.machine engine.new)) }
    // Nothing has changed, but for want of memory in the middle of the updates. The commits are the
    // old ones then, and `tidy` undoes what is held.
    ensures refused { IfErr result (λ r. E.alone
        → NotWritten (E.machine engine.old) transaction.now r (E.machine engine.new)) }
    // The asks that it shows are the first eight that did not hold of the old log, in their order; each
    // other ask held.
    ensures shown { IfErr result (λ r. E.alone
        → AreBounds changes.old (E.machine engine.old).held.pages (E.machine engine.old).held.log
        → ShowsFailing (E.machine engine.old).held.log transaction.now.asks.items r) }
    // They are the first eight that the bounds of the last commits do not meet: of those for a key that
    // is to be unchanged, each whose LSN is at or past the log's end, or below the key's bound.
    ensures unmet { IfErr result (λ r. E.alone → ShowsUnmet changes.old
        (E.machine engine.old).held.log transaction.now.asks.items r) }
    ensures bounds { E.alone
        → AreBounds changes.old (E.machine engine.old).held.pages (E.machine engine.old).held.log
        → AreBounds changes.new (E.machine engine.new).held.pages (E.machine engine.new).held.log }
    ensures keeps { E.alone → Keeps (E.machine engine.old) (E.machine engine.new) }
    ensures book { E.book engine.new ≡ E.book engine.old }
{
    let planned = make_plan(alloc, &*engine, changes, transaction, Closing::Commit)?;
    let written = feed_plan(engine, &planned, transaction)?;
    changes.note(&transaction.sets, written.lsn);
    Ok(written)
}

/// Feeds a transaction that was planned.
pub(crate) fn feed_plan<E: Writes>(
    engine: &mut E,
    planned: &Plan,
    transaction: &Transaction,
) -> Result<Written, Refusal>
    ensures done { IfOk result (λ w. E.alone
        → IsPlan (E.machine engine.old) closing.Commit transaction.now planned.now
        → IsInLog (E.machine engine.old) transaction.now w (E.machine engine.new)) }
    ensures prepared { IfOk result (λ w. E.alone
        → IsPlan (E.machine engine.old) closing.Prepare transaction.now planned.now
        → IsPrepared (E.machine engine.old) transaction.now w (E.machine engine.new)) }
    ensures refused { IfErr result (λ r. E.alone → (by : AnyClosing)
        → IsPlan (E.machine engine.old) by transaction.now planned.now
        → FeedRefused (E.machine engine.old) transaction.now r (E.machine engine.new)) }
    ensures keeps { E.alone → Keeps (E.machine engine.old) (E.machine engine.new) }
    ensures book { E.book engine.new ≡ E.book engine.old }
{
    match engine.feed(&planned.piece) {
        Ok(_) => Ok(told_of(planned)),
        Err(refusal) => match refusal.fault {
            Fault::Memory => {
                // The commit or the prepare is held, and at most an end is owed.
                if refusal.records > transaction.sets.len() {
                    return Ok(told_of(planned));
                }
                Err(Refusal::Memory {
                    owed: refusal.records > 0,
                })
            }
            fault => Err(Refusal::Unplanned(fault)),
        },
    }
}

/// What is returned of a plan that is in the log.
fn told_of(planned: &Plan) -> Written
    ensures { result ≡ record {
      trans = planned.now.trans;
      lsn = planned.now.lsn;
      end = planned.now.end;
    } }
{
    Written {
        trans: planned.trans,
        lsn: planned.lsn,
        end: planned.end,
    }
}
