use als_quorum::Wanted;
use als_record::Lsn;
use std::time::Duration;

/// The most milliseconds from one round to the next.
const BEAT: u64 = 1_000;

/// The round by which a primary learns, while nobody commits, whether its followers still follow it.
#[derive(Clone, Copy)]
pub(crate) struct Pulse {
    /// From one round to the next.
    every: Duration,
    /// The number of the round that is not answered yet. None: there is none.
    round: Option<u64>,
    /// When the last round began. None: none did.
    began: Option<Duration>,
}

impl Pulse {
    /// None was asked. It is to be known each so many seconds: a round begins four times as often, and each second at least.
    pub fn within(seconds: u64) -> Pulse {
        let every = Duration::from_millis(seconds.saturating_mul(BEAT / 4).min(BEAT));
        Pulse {
            every,
            round: None,
            began: None,
        }
    }

    /// What is wanted of the followers, and since when: an answer to a frame of this round, whatever they lack. None: nothing.
    pub fn wanted(&self) -> Option<(Wanted, Duration)> {
        match (self.round, self.began) {
            (Some(round), Some(began)) => {
                let wanted = Wanted { lsn: Lsn(0), round };
                Some((wanted, began))
            }
            _ => None,
        }
    }

    /// The round was answered.
    pub fn end(&mut self) {
        self.round = None;
    }

    /// Whether a round is due: no other is on its way, and the last one began long enough ago.
    pub fn is_due(&self, now: Duration) -> bool {
        match self.began {
            Some(began) => self.round.is_none() && now.saturating_sub(began) >= self.every,
            None => true,
        }
    }

    /// A round began then.
    pub fn begin(&mut self, round: u64, now: Duration) {
        self.round = Some(round);
        self.began = Some(now);
    }
}
