ghost use Rattle.std.specs.Prelude.{◌≡◌, length, All, take, nat_lt, IfOk, IfErr};
ghost use Rattle.als_record.specs.Spelling.{IsKey};
ghost use Rattle.als_record.specs.LogText.{end_of};
ghost use Rattle.als_record.specs.Images.{image_now};
ghost use Rattle.als_writer.specs.Checking.{key_asked, AreAskedIn};
ghost use Rattle.als_writer.specs.Asking.{IsFreeNow, AreFreeNow, is_met, is_since, unmet_by, with_next};
ghost use Rattle.als_writer.specs.Refused.{KeyRefused, LookRefused};

use crate::ask::Ask;
use crate::changes::Changes;
use crate::checking::asked;
use crate::failing::Failing;
use crate::refusal::Refusal;
use crate::set::Set;
use crate::unmet::Unmet;
use als_engine::Writes;
use als_record::{KeptImage, Key, Lsn};
use std::alloc::Global;

/// What a key has, where no other open transaction holds it.
fn look<E: Writes>(engine: &E, key: Key) -> Result<KeptImage, Refusal>
    ensures now { IfOk result (λ image. E.alone
        → IsFreeNow (E.machine engine.now) key image) }
    ensures refused { IfErr result (λ r. E.alone → KeyRefused (E.machine engine.now) key r) }
{
    match engine.key_now(key) {
        Ok(told) => match told.holder {
            Some(by) => Err(Refusal::Held { key, by }),
            None => Ok(told.image),
        },
        Err(fault) => Err(Refusal::State(fault)),
    }
}

/// Whether an LSN is below the log's end.
fn is_in_log<E: Writes>(engine: &E, lsn: Lsn) -> bool
    ensures { E.alone → result ≡ nat_lt lsn.0 (end_of (E.machine engine.now).held.log) }
{
    lsn.0 < engine.status().end.0
}

/// Whether an LSN is below the log's end, and no commit above it wrote the key. `false` where that is
/// not known.
fn is_unchanged<E: Writes>(engine: &E, changes: &Changes, key: Key, since: Lsn) -> bool
    ensures { E.alone
        → result ≡ is_since changes.now (E.machine engine.now).held.log key since }
{
    let within = is_in_log(engine, since);
    let unchanged = changes.is_unchanged(key, since);
    within && unchanged
}

/// Whether an ask holds, where its key has this image.
fn holds<E: Writes>(engine: &E, changes: &Changes, ask: &Ask, now: &KeptImage) -> bool
    ensures { E.alone → now.now ≡ image_now (E.machine engine.now).held.log (key_asked ask.now)
        → result ≡ is_met changes.now (E.machine engine.now).held.log ask.now }
{
    match ask {
        Ask::Is { image, .. } => now.is(&image.shown()),
        Ask::Unchanged { key, since } => is_unchanged(engine, changes, *key, *since),
    }
}

/// The first eight asks that do not hold. Each key that is asked for has to be free.
pub(crate) fn failing_of<E: Writes>(
    engine: &E,
    changes: &Changes,
    asks: &[Ask],
) -> Result<Failing, Refusal>
    ensures first { IfOk result (λ failing. E.alone
        → failing ≡ take 8 (unmet_by changes.now (E.machine engine.now).held.log asks.now)) }
    ensures refused { IfErr result (λ r. E.alone
        → AreAskedIn (E.machine engine.now).held.pages asks.now
        → LookRefused (E.machine engine.now) r) }
{
    let mut failing = Failing::none();
    for ask in asks {
        let key = asked(ask);
        let now = look(engine, key)?;
        let met = holds(engine, changes, ask, &now);
        show_next(&mut failing, met, Unmet { key, image: now });
    }
    Ok(failing)
}

/// Shows one more ask, where it is not met and there is a place for it.
fn show_next(failing: &mut Failing, met: bool, next: Unmet)
    ensures { failing.new ≡ with_next met next failing.old }
{
    if !met {
        failing.push(next);
    }
}

/// What each key has that is set. Each has to be free.
pub(crate) fn befores_of<E: Writes>(
    alloc: Global,
    engine: &E,
    sets: &[Set],
) -> Result<Vec<KeptImage>, Refusal>
    ensures same { IfOk result (λ befores. length befores.items ≡ length sets.now) }
    ensures now { IfOk result (λ befores. E.alone
        → AreFreeNow (E.machine engine.now) sets.now befores.items) }
    ensures refused { IfErr result (λ r. E.alone
        → All (λ w. IsKey (E.machine engine.now).held.pages w.key) sets.now
        → LookRefused (E.machine engine.now) r) }
{
    let mut befores = match Vec::with_capacity(alloc, sets.len()) {
        Ok(befores) => befores,
        Err(_) => return Err(Refusal::Memory { owed: false }),
    };
    for set in sets {
        let now = look(engine, set.key)?;
        befores.push_reserved(now);
    }
    Ok(befores)
}
