use crate::reach::Reach;
use als_record::Lsn;
use std::sync::{Condvar, CondvarTimeouts, Mutex, Wait};
use std::time::{Clock, Duration};

/// Up to where a log may be read, and the number of rounds that its leader began.
struct Held {
    reach: Reach,
    round: u64,
}

impl Drop for Held {
    fn drop(self) {
        let Held { reach: _, round: _ } = self;
    }
}

impl Held {
    /// Whether a session that has read up to there, and sent its last frame in this round, sleeps on.
    fn is_awaited(&self, at: u64, round: u64) -> bool {
        self.reach.is_awaited(at) && self.round == round
    }
}

/// Up to where the sessions of a live log may read it. Its leader raises it after each force.
pub struct Tail {
    held: Mutex<Held>,
    moved: Condvar,
}

impl Drop for Tail {
    fn drop(self) {
        let Tail { held, moved: _ } = self;
        drop(held);
    }
}

impl Tail {
    /// A tail of a log that may be read up to there.
    pub fn new(end: Lsn) -> Tail {
        let reach = Reach {
            end,
            is_closed: false,
        };
        let held = Held { reach, round: 0 };
        Tail {
            held: Mutex::new(held),
            moved: Condvar::new(),
        }
    }

    /// The log is durable up to there. All waiting sessions wake.
    pub fn raise<R: Wait>(&self, rt: &R, end: Lsn) {
        let mut held = self.held.lock(rt);
        let raised = held.reach.raised(end);
        held.reach = raised;
        drop(held);
        self.moved.notify_all();
    }

    /// Nothing more comes. All waiting sessions wake.
    pub fn close<R: Wait>(&self, rt: &R) {
        self.held.lock(rt).reach.is_closed = true;
        self.moved.notify_all();
    }

    /// Begins a round, and returns its number: each session sends a frame, at once where it waits, and ends where its
    /// follower is gone. What is answered to a frame of this round was asked after this call.
    pub fn begin_round<R: Wait>(&self, rt: &R) -> u64 {
        let mut held = self.held.lock(rt);
        let round = held.round.saturating_add(1);
        held.round = round;
        drop(held);
        self.moved.notify_all();
        round
    }

    /// The log is durable up to there, and a round begins. Returns its number.
    pub fn ask<R: Wait>(&self, rt: &R, end: Lsn) -> u64 {
        let mut held = self.held.lock(rt);
        let raised = held.reach.raised(end);
        let round = held.round.saturating_add(1);
        held.reach = raised;
        held.round = round;
        drop(held);
        self.moved.notify_all();
        round
    }

    /// The number of the last round that was begun. 0: none was.
    pub fn round<R: Wait>(&self, rt: &R) -> u64 {
        self.held.lock(rt).round
    }

    /// Up to where the log may be read now.
    pub fn reach<R: Wait>(&self, rt: &R) -> Reach {
        self.held.lock(rt).reach
    }

    /// Waits, at most this long, until the log may be read past there, nothing more comes, or there is another round than
    /// this one. Returns up to where it may be read then.
    pub fn wait_past<R: Wait + Clock>(
        &self,
        rt: &R,
        at: u64,
        round: u64,
        at_most: Duration,
    ) -> Reach {
        let held = self.held.lock(rt);
        if !held.is_awaited(at, round) {
            return held.reach;
        }
        let (held, _) = self
            .moved
            .wait_timeout_while(rt, held, at_most, |held| held.is_awaited(at, round));
        held.reach
    }
}
