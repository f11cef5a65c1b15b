ghost use Rattle.std.specs.Prelude.{◌≡◌, ◌++◌, ◌∷◌, ℕ, List, [], true, false, IfOk};
ghost use Rattle.als_followers.specs.Rounds.{answered_by};

use std::alloc::{AllocError, Global};
use std::collections::VecDeque;

/// The most frames that are without an answer.
const FRAMES: usize = 64;

/// The rounds in which the frames were sent that are without an answer, in the order of the frames. A follower answers
/// in that order.
pub(crate) struct Rounds {
    unanswered: VecDeque<u64>,
    /// The round of a frame could not be kept: from then on none is known.
    is_lost: bool,
}

impl Drop for Rounds {
    fn drop(self) {
        let Rounds {
            unanswered,
            is_lost: _,
        } = self;
        drop(unanswered);
    }
}

impl Rounds {
    /// No frame was sent. It allocates for as many as may be without an answer.
    pub fn new(alloc: Global) -> Result<Rounds, AllocError>
        ensures none { IfOk result (λ rounds. rounds.unanswered.items ≡ []) }
        ensures kept { IfOk result (λ rounds. rounds.is_lost ≡ false) }
    {
        Ok(Rounds {
            unanswered: VecDeque::with_capacity(alloc, FRAMES)?,
            is_lost: false,
        })
    }

    /// A frame is sent in this round.
    pub fn send(&mut self, round: u64)
        ensures kept { self.new.is_lost ≡ false
            → self.new.unanswered.items ≡ self.old.unanswered.items ++ round ∷ [] }
        ensures lost { self.old.is_lost ≡ true → self.new.is_lost ≡ true }
    {
        if self.unanswered.push_back(round).is_err() {
            self.is_lost = true;
        }
    }

    /// The next frame was answered: the round in which it was sent. 0: it is not known.
    pub fn answer(&mut self) -> u64
        ensures round { result ≡ answered_by self.old.is_lost self.old.unanswered.items }
        ensures same { self.new.is_lost ≡ self.old.is_lost }
    {
        let first = self.unanswered.pop_front();
        match first {
            Some(round) if !self.is_lost => round,
            _ => 0,
        }
    }
}
