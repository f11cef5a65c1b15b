ghost use Rattle.std.specs.Prelude.{◌≡◌, ℕ, true, false, IfOk, IfErr};
ghost use Rattle.als_store.specs.Stored.{acknowledged};
ghost use Rattle.als_engine.specs.declared.fault.Fault.{Fault as AnyFault};
ghost use Rattle.als_lead.specs.Going.{Stays, Publishes};

use als_engine::{Events, Fault};
use als_record::Lsn;

/// What a leader does beside writing transactions. The log stays, and so does what is acknowledged and
/// published. What is confirmed stays confirmed.
pub trait Upkeep {
    /// Enough others hold the log up to this offset.
    ghost confirmed: { Self → ℕ → Type 0 };

    /// A group's confirmation up to this offset was waited for, and did not come.
    ghost missed: { Self → ℕ → Type 0 } = { λ _ _. Unit {0} };

    /// What both call confirmed is the same: as many others, of the same addresses.
    ghost alike: { Self → Self → Type 0 } = { λ _ _. Unit {0} };

    /// A confirmation failed with this fault.
    ghost failed: { Self → AnyFault → Type 0 } = { λ _ _. Unit {0} };

    /// Shows readers what is acknowledged. Called only when that is confirmed, and before the group is
    /// answered.
    fn publish<E: Events>(&mut self, engine: &mut E) -> Result<(), Fault>
        requires confirmed { E.alone → confirmed self.old (acknowledged
            (E.machine engine.old).held) }
        ensures publishes { E.alone → Publishes (E.machine engine.old) (E.machine engine.new) }
        ensures book { E.book engine.new ≡ E.book engine.old }
        ensures keeps { (n : ℕ) → confirmed self.old n → confirmed self.new n }
        ensures misses { (n : ℕ) → missed self.old n → missed self.new n }
        ensures alike { (other : Self) → alike other self.old → alike other self.new };

    /// Does what is due between two groups. Readers see what they saw before.
    fn keep_up<E: Events>(&mut self, engine: &mut E) -> Result<(), Fault>
        ensures stays { E.alone → Stays (E.machine engine.old) (E.machine engine.new) }
        ensures book { E.book engine.new ≡ E.book engine.old }
        ensures keeps { (n : ℕ) → confirmed self.old n → confirmed self.new n }
        ensures misses { (n : ℕ) → missed self.old n → missed self.new n }
        ensures alike { (other : Self) → alike other self.old → alike other self.new };

    /// Waits until enough others hold the log up to there, for as long as a group may wait, and returns
    /// whether they do. Called after a group's force.
    fn confirm(&mut self, end: Lsn) -> Result<bool, Fault>
        ensures confirms { IfOk result (λ yes. yes ≡ true → confirmed self.new end.0) }
        ensures fails { IfOk result (λ yes. yes ≡ false → missed self.new end.0) }
        ensures failed { IfErr result (λ f. failed self.new f) }
        ensures keeps { (n : ℕ) → confirmed self.old n → confirmed self.new n }
        ensures misses { (n : ℕ) → missed self.old n → missed self.new n }
        ensures alike { (other : Self) → alike other self.old → alike other self.new };

    /// Whether enough others hold the log up to there. If not, it waits a moment. Called before each group.
    fn has_confirmed(&mut self, end: Lsn) -> Result<bool, Fault>
        ensures confirms { IfOk result (λ yes. yes ≡ true → confirmed self.new end.0) }
        ensures keeps { (n : ℕ) → confirmed self.old n → confirmed self.new n }
        ensures misses { (n : ℕ) → missed self.old n → missed self.new n }
        ensures alike { (other : Self) → alike other self.old → alike other self.new };
}
