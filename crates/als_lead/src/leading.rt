ghost use Rattle.std.specs.Prelude.{◌≡◌, ℕ, [], IfOk, OnOk};
ghost use Rattle.als_writer.specs.Changes.{AreBounds};
ghost use Rattle.als_lead.specs.Going.{Stays};
ghost use Rattle.als_lead.specs.Leading.{Leads, AllTold};
ghost use Rattle.als_lead.specs.Answers.{asked_of};
ghost use Rattle.als_lead.specs.Owed.{Owes};
ghost use Rattle.als_lead.specs.Confirming.{IsShown, IsConfirmedOf, IsCarriedOut, IsExcusedOf};

use crate::clients::{Clients, Waited};
use crate::confirming::confirm_earlier;
use crate::limits::Limits;
use crate::serving::serve;
use crate::told::Told;
use crate::upkeep::Upkeep;
use als_engine::Writes;
use als_operate::Fault;
use als_writer::Changes;
use std::alloc::Global;
use std::collections::VecDeque;

/// Leads an engine that nobody else drives, until its clients have closed or something fails: what they
/// ask for is written in groups, and each group is answered after its force, once enough others hold
/// it. No group is taken before the last one is confirmed.
///
/// The first failure of the clients, of the engine or of its upkeep. Memory: allocation failed.
pub fn lead<E: Writes, C: Clients, U: Upkeep>(
    alloc: Global,
    engine: &mut E,
    clients: &mut C,
    upkeep: &mut U,
    limits: Limits,
) -> Result<(), Fault>
    // All that was taken was answered. Whatever is true of the machine, is confirmed and has its cause may
    // be told, so nothing else ever is.
    requires fresh { C.taken clients.old ≡ asked_of (C.told clients.old) }
    requires owed { Owes E.alone E.machine U.confirmed U.missed U.alike U.failed engine.old
        upkeep.old C.may_tell }
    // However it ends: what was taken is answered once, in order, to its own seat. The log's commits are
    // the old ones and those that were answered. Each answer is true of the log.
    ensures leads { Leads E.alone (E.machine engine.old) (E.machine engine.new)
        (C.taken clients.old) (C.taken clients.new) (C.told clients.old) (C.told clients.new) }
    // What is done, and what refused another work, is confirmed.
    ensures confirmed { E.alone
        → AllTold (IsConfirmedOf (U.confirmed upkeep.new) (E.machine engine.new))
        (C.told clients.old) (C.told clients.new) }
    // If it ends well, nothing was refused because the leader ended, and an answer was withheld only
    // because a confirmation was missed.
    ensures works { OnOk result (AllTold (IsCarriedOut (U.missed upkeep.new))
        (C.told clients.old) (C.told clients.new)) }
    // If it ends well, it is unknown whether what is written stays only where a confirmation was missed, or
    // where the end of a commit was owed.
    ensures known { OnOk result (E.alone
        → AllTold (IsExcusedOf (U.missed upkeep.new) E.machine (E.machine engine.new))
        (C.told clients.old) (C.told clients.new)) }
    // Readers see what they saw, or what is confirmed.
    ensures shown { E.alone
        → IsShown (U.confirmed upkeep.new) (E.machine engine.old) (E.machine engine.new) }
    ensures book { E.book engine.new ≡ E.book engine.old }
{
    let mut changes = first_changes(alloc, engine)?;
    let mut queue = VecDeque::with_capacity(alloc, limits.transactions.max(1))?;
    for _ in 0..u64::MAX {
        let goes_on = round(
            alloc,
            engine,
            &mut changes,
            clients,
            upkeep,
            &mut queue,
            limits,
        )?;
        if !goes_on {
            return Ok(());
        }
    }
    Err(Fault::Stream)
}

/// The bounds of the last commits at the start: none is above the last commit of the log.
fn first_changes<E: Writes>(alloc: Global, engine: &E) -> Result<Changes, Fault>
    ensures bounds { IfOk result (λ changes. E.alone
        → AreBounds changes (E.machine engine.now).held.pages (E.machine engine.now).held.log) }
{
    // For the prover only: what always holds of the log.
    let _ = engine.status();
    let changes = Changes::new(alloc, engine.pages(), engine.writing().last_commit)?;
    Ok(changes)
}

/// Waits for clients and serves them if they ask, unless an earlier group is not confirmed. Then does the
/// upkeep. Returns whether there may be more.
fn round<E: Writes, C: Clients, U: Upkeep>(
    alloc: Global,
    engine: &mut E,
    changes: &mut Changes,
    clients: &mut C,
    upkeep: &mut U,
    queue: &mut VecDeque<Told>,
    limits: Limits,
) -> Result<bool, Fault>
    requires bounded { E.alone → AreBounds changes.old (E.machine engine.old).held.pages
        (E.machine engine.old).held.log }
    requires empty { queue.old.items ≡ [] }
    requires fresh { C.taken clients.old ≡ asked_of (C.told clients.old) }
    requires owed { Owes E.alone E.machine U.confirmed U.missed U.alike U.failed engine.old
        upkeep.old C.may_tell }
    ensures leads { Leads E.alone (E.machine engine.old) (E.machine engine.new)
        (C.taken clients.old) (C.taken clients.new) (C.told clients.old) (C.told clients.new) }
    ensures confirmed { E.alone
        → AllTold (IsConfirmedOf (U.confirmed upkeep.new) (E.machine engine.new))
        (C.told clients.old) (C.told clients.new) }
    ensures works { OnOk result (AllTold (IsCarriedOut (U.missed upkeep.new))
        (C.told clients.old) (C.told clients.new)) }
    ensures known { OnOk result (E.alone
        → AllTold (IsExcusedOf (U.missed upkeep.new) E.machine (E.machine engine.new))
        (C.told clients.old) (C.told clients.new)) }
    ensures shown { E.alone
        → IsShown (U.confirmed upkeep.new) (E.machine engine.old) (E.machine engine.new) }
    ensures keeps { (n : ℕ) → U.confirmed upkeep.old n → U.confirmed upkeep.new n }
    ensures misses { (n : ℕ) → U.missed upkeep.old n → U.missed upkeep.new n }
    ensures alike { (other : U) → U.alike other upkeep.old → U.alike other upkeep.new }
    ensures emptied { queue.new.items ≡ [] }
    ensures bounds { E.alone → AreBounds changes.new (E.machine engine.new).held.pages
        (E.machine engine.new).held.log }
    ensures book { E.book engine.new ≡ E.book engine.old }
{
    if !confirm_earlier(engine, upkeep)? {
        return pause(engine, clients, upkeep);
    }
    match clients.wait()? {
        Waited::Closed => Ok(false),
        Waited::Idle => rest(engine, upkeep),
        Waited::Asks => {
            serve(alloc, engine, changes, clients, upkeep, queue, limits)?;
            rest(engine, upkeep)
        }
    }
}

/// Waits for clients and takes nothing from them. Returns whether there may be more.
fn pause<E: Writes, C: Clients, U: Upkeep>(
    engine: &mut E,
    clients: &mut C,
    upkeep: &mut U,
) -> Result<bool, Fault>
    ensures stays { E.alone → Stays (E.machine engine.old) (E.machine engine.new) }
    ensures taken { C.taken clients.new ≡ C.taken clients.old }
    ensures told { C.told clients.new ≡ C.told clients.old }
    ensures keeps { (n : ℕ) → U.confirmed upkeep.old n → U.confirmed upkeep.new n }
    ensures misses { (n : ℕ) → U.missed upkeep.old n → U.missed upkeep.new n }
    ensures alike { (other : U) → U.alike other upkeep.old → U.alike other upkeep.new }
    ensures book { E.book engine.new ≡ E.book engine.old }
{
    match clients.wait()? {
        Waited::Closed => Ok(false),
        Waited::Idle | Waited::Asks => rest(engine, upkeep),
    }
}

/// Does the upkeep when nobody is served. The leader goes on.
fn rest<E: Writes, U: Upkeep>(engine: &mut E, upkeep: &mut U) -> Result<bool, Fault>
    ensures stays { E.alone → Stays (E.machine engine.old) (E.machine engine.new) }
    ensures keeps { (n : ℕ) → U.confirmed upkeep.old n → U.confirmed upkeep.new n }
    ensures misses { (n : ℕ) → U.missed upkeep.old n → U.missed upkeep.new n }
    ensures alike { (other : U) → U.alike other upkeep.old → U.alike other upkeep.new }
    ensures book { E.book engine.new ≡ E.book engine.old }
{
    upkeep.keep_up(engine)?;
    Ok(true)
}
