ghost use Rattle.std.specs.Prelude.{◌≡◌, IfErr};
ghost use Rattle.als_ship.specs.Follows.{SameText};
ghost use Rattle.als_operate.specs.Upkeep.{UpkeepRefused};

use crate::storing::store;
use als_drive::drain;
use als_engine::{Events, Fault};
use als_record::Lsn;
use als_ship::Upkeep;
use std::sync::Wait;

/// The upkeep of a standby that follows: after each acknowledged frame its commits are published
/// and its pages redone, so that what waits never comes near its limit. After so many log bytes the
/// pages are written too, and a checkpoint is taken, so that a restart has little to redo.
#[derive(Drop)]
pub struct StandbyUpkeep<'a, R: Wait> {
    /// What waits for readers when commits are published.
    rt: &'a R,
    /// The log bytes from one checkpoint to the next. 0: none is taken.
    each: u64,
    /// Where the log ends when the next one is due.
    due: u64,
}

impl<'a, R: Wait> StandbyUpkeep<'a, R> {
    /// The upkeep of a standby whose log ends there, with a checkpoint each so many bytes of log;
    /// with none for 0.
    pub fn new(rt: &'a R, each: u64, end: Lsn) -> StandbyUpkeep<'a, R> {
        StandbyUpkeep {
            rt,
            each,
            due: end.0.saturating_add(each),
        }
    }

    /// Is a checkpoint due, where the log ends there?
    fn is_due(&self, end: Lsn) -> bool {
        self.each > 0 && end.0 >= self.due
    }
}

impl<R: Wait> Upkeep for StandbyUpkeep<'_, R> {
    ghost use Rattle.als_operate.specs.Upkeep.{UpkeepRefused};

    ghost refuses = { UpkeepRefused };

    #[tactic(auto, using(als_ship::proofs::LogForcing::same_trans, crate::proofs::Keeping::redoes_same, crate::proofs::Refusing::redo_refused, crate::proofs::Refusing::store_refused))]
    fn keep_up<E: Events>(&mut self, events: &mut E) -> Result<(), Fault> {
        publish(self.rt, events)?;
        drain(events)?;
        let end = events.status().end;
        if self.is_due(end) {
            store(events)?;
            self.due = end.0.saturating_add(self.each);
        }
        Ok(())
    }
}

/// Publishes the commits that are acknowledged, if there are more than before. Memory: the list of
/// readers could not grow, and nothing has changed.
#[tactic(auto, using(crate::proofs::Keeping::publish_same, crate::proofs::Refusing::view_refused))]
fn publish<R: Wait, E: Events>(rt: &R, events: &mut E) -> Result<(), Fault>
    ensures same { E.alone → SameText (E.machine events.old) (E.machine events.new) }
    ensures fails { IfErr result (λ f. E.alone → UpkeepRefused f (E.machine events.new)) }
{
    match events.publish_view(rt) {
        Ok(()) => Ok(()),
        Err(Fault::NothingToDo) => Ok(()),
        Err(fault) => Err(fault),
    }
}
