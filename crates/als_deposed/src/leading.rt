ghost use Rattle.std.specs.Prelude.{◌≡◌, ◌≤◌, ℕ, List, Option};
ghost use Rattle.als_record.specs.declared.record.Record.{Record as AnyRecord};
ghost use Rattle.als_record.specs.LogText.{IsLog};
ghost use Rattle.als_record.specs.Validity.{IsValidLog};
ghost use Rattle.als_lease.specs.Lease.{Leased};
ghost use Rattle.als_store.specs.Stored.{acknowledged};
ghost use Rattle.als_engine.specs.Machine.{Machine};
ghost use Rattle.als_writer.specs.declared.transaction.Transaction.{Transaction as AnyTransaction};
ghost use Rattle.als_writer.specs.declared.work.Work.TheVariants as work;
ghost use Rattle.als_writer.specs.declared.written.Written.{Written as AnyWritten};
ghost use Rattle.als_ship.specs.Follows.{IsFront, HoldsFront, epoch_of};
ghost use Rattle.als_world.specs.Standing.{Standing, Up, Keeps, log_of};
ghost use Rattle.als_lead.specs.declared.answer.Answer.TheVariants as answer;
ghost use Rattle.als_lead.specs.Owed.{IsDue};
ghost use Rattle.als_lead.specs.Placed.{IsCommitOf, acknowledged_text};
ghost use Rattle.als_deposed.specs.Answered.{IsAnswered, GoesOnFrom};

use als_engine::Events;
use als_lead::Upkeep;

/// What a leader may answer as committed is the commit of a record of its log, and there is an offset at or
/// above its end that is confirmed. Each standby that holds a prefix of a text which begins with what the
/// leader's log has acknowledged, and has told that offset or a later one, has the commit as the laws here
/// ask; so whatever becomes of its world, its log goes on from that very record.
pub fn what_a_leader_answered_is_taken_over<E: Events, U: Upkeep>()
    ensures answered { (start e : E) (u : U) (t : AnyTransaction) (w : AnyWritten)
        → IsDue E U E.machine U.confirmed U.missed U.failed start e u (work.Commit t)
        (answer.Committed w) → IsValidLog (E.machine e).held.pages (E.machine e).held.log
        → (end : ℕ) × (w.end.0 ≤ end) × U.confirmed u end × (front : List AnyRecord)
        × (r : AnyRecord) × IsCommitOf (E.machine e) t w front r
        × ((texts : ℕ → List ℕ) (seals : List ℕ) (told : ℕ) (standby : Machine)
        → IsFront (acknowledged_text (E.machine e)) (texts (epoch_of standby))
        → HoldsFront texts seals standby → IsLog standby.held.pages standby.held.log
        → end ≤ told → told ≤ acknowledged standby.held
        → IsAnswered texts seals (E.machine e).held.pages front r told standby) }
    ensures kept { (start e : E) (u : U) (t : AnyTransaction) (w : AnyWritten)
        → IsDue E U E.machine U.confirmed U.missed U.failed start e u (work.Commit t)
        (answer.Committed w) → IsValidLog (E.machine e).held.pages (E.machine e).held.log
        → (end : ℕ) × (w.end.0 ≤ end) × U.confirmed u end × (front : List AnyRecord)
        × (r : AnyRecord) × IsCommitOf (E.machine e) t w front r
        × ((texts : ℕ → List ℕ) (seals : List ℕ) (told : ℕ) (standby : Machine)
        (leases : List (Option Leased)) (new : Standing)
        → IsFront (acknowledged_text (E.machine e)) (texts (epoch_of standby))
        → HoldsFront texts seals standby → IsLog standby.held.pages standby.held.log
        → end ≤ told → told ≤ acknowledged standby.held → Keeps (Up standby leases) new
        → GoesOnFrom (log_of new) front r) }
{}
