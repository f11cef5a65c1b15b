ghost use Rattle.std.specs.Prelude.{◌≡◌, ◌++◌, ℕ, [], OnOk};
ghost use Rattle.als_writer.specs.Changes.{AreBounds};
ghost use Rattle.als_lead.specs.Leading.{Leads, AllTold};
ghost use Rattle.als_lead.specs.Going.{Tidies};
ghost use Rattle.als_lead.specs.Answers.{asked_of};
ghost use Rattle.als_lead.specs.Owed.{Owes};
ghost use Rattle.als_lead.specs.Confirming.{IsWhole, IsShown, IsConfirmedOf, IsCarriedOut, IsExcusedOf};

use crate::clients::Clients;
use crate::confirming::{confirmed, show};
use crate::filling::fill;
use crate::forcing::make_durable;
use crate::limits::Limits;
use crate::telling::{first, tell_all};
use crate::told::Told;
use crate::upkeep::Upkeep;
use als_engine::Writes;
use als_operate::Fault;
use als_writer::{Changes, tidy};
use std::alloc::Global;
use std::collections::VecDeque;

/// Serves one group: its works are written, the log is forced once, enough others confirm it, readers
/// see what is committed, and then all of the group is answered.
pub(crate) fn serve<E: Writes, C: Clients, U: Upkeep>(
    alloc: Global,
    engine: &mut E,
    changes: &mut Changes,
    clients: &mut C,
    upkeep: &mut U,
    queue: &mut VecDeque<Told>,
    limits: Limits,
) -> Result<(), Fault>
    // No group is taken before enough others hold the whole log.
    requires whole { E.alone → IsWhole (U.confirmed upkeep.old) (E.machine engine.old) }
    requires bounded { E.alone → AreBounds changes.old (E.machine engine.old).held.pages
        (E.machine engine.old).held.log }
    requires empty { queue.old.items ≡ [] }
    requires fresh { C.taken clients.old ≡ asked_of (C.told clients.old) }
    requires owed { Owes E.alone E.machine U.confirmed U.missed U.alike U.failed engine.old
        upkeep.old C.may_tell }
    ensures leads { Leads E.alone (E.machine engine.old) (E.machine engine.new)
        (C.taken clients.old) (C.taken clients.new) (C.told clients.old) (C.told clients.new) }
    ensures confirmed { E.alone
        → AllTold (IsConfirmedOf (U.confirmed upkeep.new) (E.machine engine.new))
        (C.told clients.old) (C.told clients.new) }
    ensures works { OnOk result (AllTold (IsCarriedOut (U.missed upkeep.new))
        (C.told clients.old) (C.told clients.new)) }
    ensures known { OnOk result (E.alone
        → AllTold (IsExcusedOf (U.missed upkeep.new) E.machine (E.machine engine.new))
        (C.told clients.old) (C.told clients.new)) }
    ensures shown { E.alone
        → IsShown (U.confirmed upkeep.new) (E.machine engine.old) (E.machine engine.new) }
    ensures keeps { (n : ℕ) → U.confirmed upkeep.old n → U.confirmed upkeep.new n }
    ensures misses { (n : ℕ) → U.missed upkeep.old n → U.missed upkeep.new n }
    ensures alike { (other : U) → U.alike other upkeep.old → U.alike other upkeep.new }
    ensures emptied { queue.new.items ≡ [] }
    ensures bounds { E.alone → AreBounds changes.new (E.machine engine.new).held.pages
        (E.machine engine.new).held.log }
    ensures book { E.book engine.new ≡ E.book engine.old }
{
    let filled = fill(alloc, engine, changes, clients, queue, limits);
    tidy_owed(alloc, engine, changes);
    let durable = make_durable(engine);
    let forced = confirmed(upkeep, durable);
    let shown = show(engine, upkeep, forced);
    let told = tell_all(clients, queue, forced);
    let ended = clients.end_group();
    first(first(filled, shown), first(told, ended))
}

/// Writes what the group owes to the log, if possible. If not, it stays owed, and the work that it ends
/// stays `Unknown`.
fn tidy_owed<E: Writes>(alloc: Global, engine: &mut E, changes: &Changes)
    ensures tidies { E.alone → Tidies (E.machine engine.old) (E.machine engine.new) }
    ensures bounds { E.alone → AreBounds changes.now (E.machine engine.old).held.pages
        (E.machine engine.old).held.log → AreBounds changes.now (E.machine engine.new).held.pages
        (E.machine engine.new).held.log }
    ensures book { E.book engine.new ≡ E.book engine.old }
{
    if matches!(engine.next_of_tail(), Ok(None)) {
        return;
    }
    let _ = tidy(alloc, engine);
}
