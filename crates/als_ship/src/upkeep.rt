ghost use Rattle.std.specs.Prelude.{◌≡◌, IfErr};
ghost use Rattle.als_engine.specs.declared.fault.Fault.{Fault as AnyFault};
ghost use Rattle.als_engine.specs.Machine.{Machine};
ghost use Rattle.als_ship.specs.Follows.{SameText};

use als_engine::{Events, Fault};

/// What is done with a standby between the frames of a session: its pages are redone and written,
/// its commits published, checkpoints taken.
pub trait Upkeep {
    /// Why it may be refused, and what the standby then is.
    ghost refuses: { AnyFault → Machine → Type 0 };

    /// Does what is due after a frame was acknowledged. The log and the partial record stay.
    fn keep_up<E: Events>(&mut self, events: &mut E) -> Result<(), Fault>
        ensures same { E.alone → SameText (E.machine events.old) (E.machine events.new) }
        ensures fails { IfErr result (λ f. E.alone → refuses f (E.machine events.new)) };
}

/// Nothing is done. It is the upkeep of `Follower::follow`, which tests and figures call.
#[derive(Clone, Copy, Debug)]
pub struct NoUpkeep;

impl Upkeep for NoUpkeep {
    ghost refuses = { λ _ _. ⊥ };

    #[tactic(auto, using(crate::proofs::LogForcing::same_refl))]
    fn keep_up<E: Events>(&mut self, _events: &mut E) -> Result<(), Fault> {
        Ok(())
    }
}
