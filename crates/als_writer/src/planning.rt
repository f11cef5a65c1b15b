ghost use Rattle.std.specs.Prelude.{◌≡◌, ◌+◌, ◌≤◌, ◌^◌, length, IfOk, IfErr, OnOk, All};
ghost use Rattle.als_record.specs.Spelling.{IsImage};
ghost use Rattle.als_writer.specs.Asking.{IsAsked};
ghost use Rattle.als_writer.specs.Changes.{AreBounds};
ghost use Rattle.als_writer.specs.Checking.{AreApart};
ghost use Rattle.als_writer.specs.Placing.{AreBefores};
ghost use Rattle.als_writer.specs.Planning.{IsTidy, IsStart, IsPlan};
ghost use Rattle.als_writer.specs.Closing.{extra_of};
ghost use Rattle.als_writer.specs.Refused.{TidyRefused, StartRefused, PlanRefusedBeside, ShowsFailing, ShowsUnmet};

use crate::asking::{befores_of, failing_of};
use crate::changes::Changes;
use crate::checking::find_flaw;
use crate::closing::Closing;
use crate::refusal::Refusal;
use crate::room::room;
use crate::set::Set;
use crate::spelling::spell;
use crate::transaction::Transaction;
use als_engine::Writes;
use als_record::{KeptImage, Lsn, TRANSACTION_LIMIT, TransId};
use als_writing::Place;
use std::alloc::Global;

/// The log keeps this distance to 2^64 bytes, which is more than a transaction's records take.
const DISTANCE: u64 = 131_072;

/// A transaction that the engine will not refuse, as the one piece to feed.
#[derive(Drop)]
pub(crate) struct Plan {
    pub piece: Vec<u8>,
    pub trans: TransId,
    /// The LSN of the commit record, or of the prepare record.
    pub lsn: Lsn,
    /// Where the last record ends.
    pub end: Lsn,
}

/// Whether nothing is owed to the log and no part of a record waits.
pub(crate) fn check_tidy<E: Writes>(engine: &E) -> Result<(), Refusal>
    ensures tidy { OnOk result (E.alone → IsTidy (E.machine engine.now)) }
    ensures refused { IfErr result (λ r. E.alone → TidyRefused (E.machine engine.now) r) }
{
    if engine.status().partial != 0 {
        return Err(Refusal::Untidy);
    }
    match engine.next_of_tail() {
        Ok(None) => Ok(()),
        Ok(Some(_)) => Err(Refusal::Untidy),
        Err(fault) => Err(Refusal::State(fault)),
    }
}

/// Where the first record of a new transaction stands, which may begin and has room, with so many
/// bytes besides.
fn start<E: Writes>(
    engine: &E,
    sets: &[Set],
    befores: &[KeptImage],
    extra: u64,
) -> Result<Place, Refusal>
    requires same { length befores.now ≡ length sets.now }
    requires few { length sets.now ≤ 600 }
    requires little { extra ≤ 56 }
    ensures start { IfOk result (λ p. E.alone
        → AreBefores (E.machine engine.now).held.log sets.now befores.now → AreApart sets.now
        → IsStart (E.machine engine.now) extra sets.now p) }
    ensures distance { IfOk result (λ p. p.end.0 + 131072 ≤ 2 ^ 64) }
    ensures images { OnOk result (All (λ w. IsImage w.after) sets.now) }
    ensures refused { IfErr result (λ r. E.alone
        → AreBefores (E.machine engine.now).held.log sets.now befores.now → AreApart sets.now
        → StartRefused extra (E.machine engine.now) sets.now r) }
{
    let now = engine.writing();
    let end = engine.status().end;
    if now.greatest.0 == u32::MAX {
        return Err(Refusal::NumbersSpent);
    }
    if now.unended >= TRANSACTION_LIMIT {
        return Err(Refusal::TooMany);
    }
    if now.free < room(sets, befores) + extra || end.0 > u64::MAX - DISTANCE {
        return Err(Refusal::LogFull);
    }
    Ok(Place::first(end, TransId(now.greatest.0 + 1)))
}

/// Asks all that a transaction asks, and spells it. Nothing has changed, whatever comes of it.
pub(crate) fn make_plan<E: Writes>(
    alloc: Global,
    engine: &E,
    changes: &Changes,
    transaction: &Transaction,
    closing: Closing,
) -> Result<Plan, Refusal>
    ensures planned { IfOk result (λ p. E.alone
        → IsPlan (E.machine engine.now) closing transaction.now p) }
    ensures asked { OnOk result (E.alone
        → AreBounds changes.now (E.machine engine.now).held.pages (E.machine engine.now).held.log
        → All (λ a. IsAsked (E.machine engine.now).held.log a) transaction.now.asks.items) }
    ensures refused { IfErr result (λ r. E.alone
        → PlanRefusedBeside (extra_of closing) (E.machine engine.now) transaction.now r) }
    ensures shown { IfErr result (λ r. E.alone
        → AreBounds changes.now (E.machine engine.now).held.pages (E.machine engine.now).held.log
        → ShowsFailing (E.machine engine.now).held.log transaction.now.asks.items r) }
    ensures unmet { IfErr result (λ r. E.alone → ShowsUnmet changes.now
        (E.machine engine.now).held.log transaction.now.asks.items r) }
{
    if let Some(flaw) = find_flaw(transaction, engine.pages()) {
        return Err(Refusal::Invalid(flaw));
    }
    check_tidy(engine)?;
    let sets = transaction.sets.as_slice();
    let failing = failing_of(engine, changes, &transaction.asks)?;
    let befores = befores_of(alloc, engine, sets)?;
    if !failing.is_empty() {
        return Err(Refusal::NotAsAsked { failing });
    }
    let place = start(engine, sets, &befores, closing.extra())?;
    let trans = place.trans;
    match spell(alloc, place, sets, &befores, closing) {
        Ok(spelled) => Ok(Plan {
            piece: spelled.piece,
            trans,
            lsn: spelled.lsn,
            end: spelled.end,
        }),
        Err(_) => Err(Refusal::Memory { owed: false }),
    }
}
