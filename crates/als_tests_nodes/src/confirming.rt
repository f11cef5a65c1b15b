use als_engine::{Events, Fault};
use als_followers::{Quorum, Tail};
use als_lead::{PrimaryUpkeep, Upkeep};
use als_quorum::Wanted;
use als_record::Lsn;
use std::alloc::Global;
use std::sync::{Arc, Wait};
use std::time::{Clock, Duration};

/// A commit waits for so many seconds at most.
const LONG: u64 = 5;

/// The upkeep of a primary whose commits wait for one follower.
#[derive(Drop)]
pub struct OneFollower<'a, R: Wait> {
    pub rt: &'a R,
    pub upkeep: PrimaryUpkeep<'a, R>,
    pub tail: Arc<Tail, Global>,
    pub quorum: Arc<Quorum, Global>,
}

impl<R: Wait + Clock> Upkeep for OneFollower<'_, R> {
    ghost confirmed = { λ others n. Unit {0} };

    fn publish<E: Events>(&mut self, engine: &mut E) -> Result<(), Fault> {
        self.upkeep.publish(engine)
    }

    fn keep_up<E: Events>(&mut self, engine: &mut E) -> Result<(), Fault> {
        self.upkeep.keep_up(engine)
    }

    fn confirm(&mut self, end: Lsn) -> Result<bool, Fault> {
        let wanted = Wanted {
            lsn: end,
            round: self.tail.ask(self.rt, end),
        };
        let tally = self
            .quorum
            .wait_for(self.rt, 1, wanted, Duration::from_secs(LONG));
        Ok(tally.is_enough)
    }

    fn has_confirmed(&mut self, end: Lsn) -> Result<bool, Fault> {
        self.confirm(end)
    }
}
