ghost use Rattle.std.specs.Prelude.{◌≡◌, IfOk, IfErr};
ghost use Rattle.als_engine.specs.Machine.{Keeps};
ghost use Rattle.als_writer.specs.Changes.{AreBounds};
ghost use Rattle.als_writer.specs.Preparing.{Prepares, NotPrepared};
ghost use Rattle.als_writer.specs.Refused.{ShowsFailing, ShowsUnmet};

use crate::changes::Changes;
use crate::closing::Closing;
use crate::planning::make_plan;
use crate::refusal::Refusal;
use crate::transaction::Transaction;
use crate::writing::feed_plan;
use crate::written::Written;
use als_engine::Writes;
use std::alloc::Global;

/// Prepares a transaction that a coordinator decides: where each ask holds, an update for each set
/// and the prepare record are in the log, and durable once the log is acknowledged to their end. Its
/// keys are held until `decide` ends it. All that can be refused is refused before anything is fed,
/// but for want of memory in the middle.
#[tactic(auto, using(als_engine::proofs::KeepLaws::keeps_equal))]
pub fn prepare<E: Writes>(
    alloc: Global,
    engine: &mut E,
    changes: &Changes,
    transaction: &Transaction,
) -> Result<Written, Refusal>
    // Each ask held of the old log. The log is the old one and exactly this transaction's updates and
    // its prepare record. It is in doubt, and no commit came.
    ensures done { IfOk result (λ w. E.alone
        → AreBounds changes.now (E.machine engine.old).held.pages (E.machine engine.old).held.log
        → Prepares (E.machine engine.old) transaction.now w (E.machine engine.new)) }
    // Nothing has changed, but for want of memory in the middle of the updates: `tidy` undoes them.
    ensures refused { IfErr result (λ r. E.alone
        → NotPrepared (E.machine engine.old) transaction.now r (E.machine engine.new)) }
    // The asks that it shows are the first eight that did not hold of the old log, in their order; each
    // other ask held.
    ensures shown { IfErr result (λ r. E.alone
        → AreBounds changes.now (E.machine engine.old).held.pages (E.machine engine.old).held.log
        → ShowsFailing (E.machine engine.old).held.log transaction.now.asks.items r) }
    // They are the first eight that the bounds of the last commits do not meet: of those for a key that
    // is to be unchanged, each whose LSN is at or past the log's end, or below the key's bound.
    ensures unmet { IfErr result (λ r. E.alone → ShowsUnmet changes.now
        (E.machine engine.old).held.log transaction.now.asks.items r) }
    // What bounds the last commits still does.
    ensures bounds { E.alone
        → AreBounds changes.now (E.machine engine.old).held.pages (E.machine engine.old).held.log
        → AreBounds changes.now (E.machine engine.new).held.pages (E.machine engine.new).held.log }
    ensures keeps { E.alone → Keeps (E.machine engine.old) (E.machine engine.new) }
    ensures book { E.book engine.new ≡ E.book engine.old }
{
    let planned = make_plan(alloc, &*engine, changes, transaction, Closing::Prepare)?;
    let written = feed_plan(engine, &planned, transaction)?;
    Ok(written)
}
