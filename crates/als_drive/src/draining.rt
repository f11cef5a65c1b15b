ghost use Rattle.std.specs.Prelude.{◌≡◌, true, OnOk, IfErr};
ghost use Rattle.als_lease.specs.Lease.{is_finished, with_done};
ghost use Rattle.als_drive.specs.Driving.{IsDrained, OnlyRedoes, RedoRefused, IsOut};

use crate::progress::{Progress, Silent};
use als_engine::{Events, Fault};
use als_lease::PageLease;

/// After so many redos `progress` hears how many changes wait.
const TOLD_EACH: u64 = 64;

/// Redoes each page that waits for changes, in rising order, and again until none does. The first
/// refusal ends it.
pub fn drain<E: Events>(events: &mut E) -> Result<(), Fault>
    // Then no page waits.
    ensures done { OnOk result (E.alone → IsDrained (E.machine events.new)) }
    // Nothing but pages changes, and readers stay readers of it.
    ensures keeps { E.alone → OnlyRedoes (E.machine events.old) (E.machine events.new) }
    ensures fails { IfErr result (λ f. E.alone → RedoRefused f (E.machine events.new)) }
    ensures book { E.book events.new ≡ E.book events.old }
{
    drain_telling(events, &mut Silent)
}

/// The same, and tells every now and then how many changes wait: at the beginning, and last that
/// none does.
#[tactic(auto, using(crate::proofs::Redoing::redoes_nothing, crate::proofs::Redoing::redoes_more, crate::proofs::Redoing::rounds_spent))]
pub fn drain_telling<E: Events, P: Progress>(events: &mut E, progress: &mut P) -> Result<(), Fault>
    ensures done { OnOk result (E.alone → IsDrained (E.machine events.new)) }
    ensures keeps { E.alone → OnlyRedoes (E.machine events.old) (E.machine events.new) }
    ensures fails { IfErr result (λ f. E.alone → RedoRefused f (E.machine events.new)) }
    ensures book { E.book events.new ≡ E.book events.old }
{
    let mut from = 0;
    for redone in 0..u64::MAX {
        if redone % TOLD_EACH == 0 {
            progress.waits(events.status().pending as u64);
        }
        match events.next_pending(from) {
            Some(page) => {
                redo(events, page)?;
                from = page.saturating_add(1);
            }
            None => {
                if from == 0 {
                    progress.waits(0);
                    return Ok(());
                }
                from = 0;
            }
        }
    }
    Err(Fault::Backlog)
}

/// Redoes the first changes that a page waits for: lends it, redoes the lease and gives it back. Its
/// image may have them all.
#[tactic(auto, using(crate::proofs::Redoing::lend_redoes, crate::proofs::Redoing::lend_refused, crate::proofs::Redoing::lent_is_out, crate::proofs::Redoing::redoes_more))]
fn redo<E: Events>(events: &mut E, page: u32) -> Result<(), Fault>
    ensures keeps { E.alone → OnlyRedoes (E.machine events.old) (E.machine events.new) }
    ensures fails { IfErr result (λ f. E.alone → RedoRefused f (E.machine events.new)) }
    ensures book { E.book events.new ≡ E.book events.old }
{
    match events.lend(page) {
        Ok(lease) => redo_lease(events, lease),
        Err(Fault::NothingToDo) => Ok(()),
        Err(fault) => Err(fault),
    }
}

/// Redoes a lease that is out, and gives it back.
#[tactic(auto, using(crate::proofs::Redoing::give_redoes, crate::proofs::Redoing::give_taken, crate::proofs::Redoing::still_out))]
fn redo_lease<E: Events>(events: &mut E, lease: PageLease) -> Result<(), Fault>
    requires { E.alone → IsOut (E.machine events.old) lease }
    ensures keeps { E.alone → OnlyRedoes (E.machine events.old) (E.machine events.new) }
    ensures book { E.book events.new ≡ E.book events.old }
    // It is always taken back.
    ensures taken { IfErr result (λ _. E.alone → ⊥) }
{
    match events.give(redone(lease)) {
        Ok(()) => Ok(()),
        Err(refused) => Err(refused.fault),
    }
}

/// Redoes all changes of a lease.
fn redone(lease: PageLease) -> PageLease
    ensures finished { is_finished result ≡ true }
    ensures same { result ≡ with_done lease result.done }
{
    let mut lease = lease;
    'redo: while lease.redo_next() {}
    lease
}
