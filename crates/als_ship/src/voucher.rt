ghost use Rattle.std.specs.Prelude.{◌≡◌, ℕ, ◌≤◌, IfOk};
ghost use Rattle.als_engine.specs.declared.event.Event.TheVariants as event;
ghost use Rattle.als_engine.specs.Machine.{Keeps};
ghost use Rattle.als_engine.specs.Events.{ControlSyncs};
ghost use Rattle.als_engine.specs.Tally.{TellsOk};

use als_engine::{Events, Fault};
use als_record::Lsn;

/// Acknowledges a standby's log for a session, and vouches for each answer. It stands beside the
/// events, so it knows its answers also where others drive the standby between them.
pub trait Voucher<E: Events> {
    /// An LSN that no answer was above.
    ghost floor: { Self → ℕ };

    /// Syncs the control block, as `ctl_sync` does, and answers its mark: the acknowledged LSN.
    fn acknowledge(&mut self, events: &mut E) -> Result<Lsn, Fault>
        ensures syncs { E.alone → ControlSyncs (E.machine events.old) result
            (E.machine events.new) }
        ensures keeps { E.alone → Keeps (E.machine events.old) (E.machine events.new) }
        ensures told { TellsOk event.ControlSync result (E.tally events.old) (E.tally events.new) }
        ensures book { E.book events.new ≡ E.book events.old }
        ensures vouched { IfOk result (λ lsn. lsn.0 ≤ floor self.new) }
        // The floor never falls.
        ensures rises { floor self.old ≤ floor self.new };
}
