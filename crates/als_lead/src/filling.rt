ghost use Rattle.std.specs.Prelude.{◌≡◌, ◌<◌, ◌++◌, ◌∷◌, [], OnOk};
ghost use Rattle.std.specs.VecDeque.{deque_len, deque_capacity};
ghost use Rattle.als_writer.specs.Changes.{AreBounds};
ghost use Rattle.als_lead.specs.declared.answer.Answer.{Answer as AnyAnswer};
ghost use Rattle.als_lead.specs.Groups.{Does, Fills};
ghost use Rattle.als_lead.specs.Leading.{AllTold};
ghost use Rattle.als_lead.specs.Confirming.{IsTried, IsTriedOf, IsBegun, IsBegunOf};

use crate::answer::Answer;
use crate::asked::Asked;
use crate::clients::Clients;
use crate::limits::Limits;
use crate::told::Told;
use crate::writing::write_tidily;
use als_engine::Writes;
use als_operate::Fault;
use als_writer::{Changes, NotDecided, Refusal};
use std::alloc::Global;
use std::collections::VecDeque;

/// Takes what clients ask for and writes each work, until nothing is asked for or the group is full. An
/// `Err` ends the group too: the clients failed, or the engine refuses everything from now on.
pub(crate) fn fill<E: Writes, C: Clients>(
    alloc: Global,
    engine: &mut E,
    changes: &mut Changes,
    clients: &mut C,
    queue: &mut VecDeque<Told>,
    limits: Limits,
) -> Result<(), Fault>
    requires bounded { E.alone → AreBounds changes.old (E.machine engine.old).held.pages
        (E.machine engine.old).held.log }
    ensures fills { Fills E.alone (E.machine engine.old) (E.machine engine.new)
        (C.taken clients.old) (C.taken clients.new) queue.old.items queue.new.items }
    ensures begun { OnOk result (AllTold IsBegunOf queue.old.items queue.new.items) }
    ensures tried { AllTold IsTriedOf queue.old.items queue.new.items }
    ensures told { C.told clients.new ≡ C.told clients.old }
    ensures bounds { E.alone → AreBounds changes.new (E.machine engine.new).held.pages
        (E.machine engine.new).held.log }
    ensures book { E.book engine.new ≡ E.book engine.old }
{
    let start = engine.status().end.0;
    for _ in 0..limits.transactions.max(1) {
        let bytes = engine.status().end.0.saturating_sub(start);
        if bytes >= limits.bytes || queue.len() >= queue.capacity() {
            break;
        }
        let Some(asked) = clients.next()? else {
            break;
        };
        take(alloc, engine, changes, queue, asked)?;
    }
    Ok(())
}

/// Writes one work and queues it with its answer. `Err`: the engine refuses everything from now on; it is
/// queued all the same.
fn take<E: Writes>(
    alloc: Global,
    engine: &mut E,
    changes: &mut Changes,
    queue: &mut VecDeque<Told>,
    asked: Asked,
) -> Result<(), Fault>
    requires bounded { E.alone → AreBounds changes.old (E.machine engine.old).held.pages
        (E.machine engine.old).held.log }
    requires room { deque_len queue.old < deque_capacity queue.old }
    ensures does { (answer : AnyAnswer) × (queue.new.items ≡ queue.old.items
        ++ record { asked = asked; answer = answer } ∷ []) × (E.alone
        → Does (E.machine engine.old) asked.work answer (E.machine engine.new)) }
    ensures begun { OnOk result (AllTold IsBegunOf queue.old.items queue.new.items) }
    ensures tried { AllTold IsTriedOf queue.old.items queue.new.items }
    ensures bounds { E.alone → AreBounds changes.new (E.machine engine.new).held.pages
        (E.machine engine.new).held.log }
    ensures book { E.book engine.new ≡ E.book engine.old }
{
    let answer = write_tidily(alloc, engine, changes, &asked.work);
    let goes_on = go_on(&answer);
    queue.push_back_reserved(Told { asked, answer });
    goes_on
}

/// `Err` if the engine refuses everything from now on.
fn go_on(answer: &Answer) -> Result<(), Fault>
    ensures { OnOk result (IsTried answer.now → IsBegun answer.now) }
{
    match *answer {
        Answer::Refused(Refusal::State(fault)) => Err(Fault::Refused(fault)),
        Answer::Refused(Refusal::Unplanned(fault)) => Err(Fault::Refused(fault)),
        Answer::NotDecided(NotDecided::State(fault)) => Err(Fault::Refused(fault)),
        _ => Ok(()),
    }
}
