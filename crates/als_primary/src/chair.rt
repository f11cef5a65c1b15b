ghost use Rattle.std.specs.Prelude.{◌≡◌};
ghost use Rattle.als_primary.specs.Fates.{fate_of};

use crate::doubts::Doubts;
use als_asking::{Commits, Doubt, Outcome as Fate};
use als_lead::Answer;
use als_seats::Outcome;
use als_tickets::{Asker, Naming, Oath};
use als_writer::Work;
use std::alloc::Global;
use std::sync::{Arc, Wait};
use std::time::{Clock, Duration};

/// The way of a serving thread to the leader, by a seat of its own.
pub(crate) struct Chair<R, O: Oath<Work, Answer>, J: Naming> {
    rt: R,
    alloc: Global,
    asker: Asker<Work, Answer, O, J>,
    doubts: Arc<Doubts, Global>,
    /// How long a piece of work may wait until it is begun.
    patience: Duration,
}

impl<R: Drop, O: Oath<Work, Answer>, J: Naming> Drop for Chair<R, O, J> {
    fn drop(self) {
        let Chair {
            rt,
            alloc: _,
            asker,
            doubts,
            patience: _,
        } = self;
        drop(rt);
        drop(asker);
        drop(doubts);
    }
}

impl<R: Wait + Clock, O: Oath<Work, Answer>, J: Naming> Chair<R, O, J> {
    /// The way by this asker's seat.
    pub fn new(
        rt: R,
        alloc: Global,
        asker: Asker<Work, Answer, O, J>,
        doubts: Arc<Doubts, Global>,
        patience: Duration,
    ) -> Chair<R, O, J> {
        Chair {
            rt,
            alloc,
            asker,
            doubts,
            patience,
        }
    }
}

impl<R: Wait + Clock, O: Oath<Work, Answer>, J: Naming> Commits for Chair<R, O, J> {
    ghost use Rattle.als_primary.specs.Fates.{AreFates};

    // No work has two outcomes. Each one may be told of the work at its place.
    ghost commits = { λ old asked outcomes new. AreFates O.may_tell asked outcomes };

    ghost doubts = { λ chair found. Unit {0} };

    fn commit(&mut self, asked: Vec<Work>) -> Vec<Fate> {
        let count = asked.len();
        // Memory for the outcomes is taken before anything is asked.
        let Ok(mut fates) = Vec::with_capacity(self.alloc, count) else {
            return Vec::new(self.alloc);
        };
        let Ok(outcomes) = self.asker.ask(&self.rt, self.alloc, asked, self.patience) else {
            return fates;
        };
        for outcome in outcomes {
            if fates.push(fate_of(outcome)).is_err() {
                break;
            }
        }
        fates
    }

    fn in_doubt(&self) -> Option<Vec<Doubt>> {
        self.doubts.copy(&self.rt)
    }
}

/// The outcome of a piece of work, as it is answered over HTTP.
fn fate_of(outcome: Outcome<Answer>) -> Fate
    ensures { result ≡ fate_of outcome }
{
    match outcome {
        Outcome::Answered(Answer::Committed(written)) => Fate::Committed(written),
        Outcome::Answered(Answer::Prepared(written)) => Fate::Prepared(written),
        Outcome::Answered(Answer::Decided(written)) => Fate::Decided(written),
        Outcome::Answered(Answer::Refused(refusal)) => Fate::Refused(refusal),
        Outcome::Answered(Answer::NotDecided(why)) => Fate::NotDecided(why),
        Outcome::Answered(Answer::Unknown(written)) => Fate::Unknown(written),
        // A withheld refusal is answered without its reason.
        Outcome::Answered(Answer::Withheld) | Outcome::NotBegun => Fate::NotBegun,
        Outcome::Lost => Fate::Lost,
    }
}
