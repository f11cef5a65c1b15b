ghost use Rattle.std.specs.Prelude.{◌≡◌, ℕ, List, IfOk, true, false};
ghost use Rattle.als_callers.specs.declared.block.Block.{Block};
ghost use Rattle.als_primary.specs.Others.{blocks_of, IsConfirmed, IsMissed};

use crate::answers::Answers;
use als_followers::Allowed;
use als_quorum::{Quorum, SEATS, Tail, Wanted};
use als_record::Lsn;
use als_report::Board;
use std::alloc::{AllocError, Global};
use std::sync::{Arc, Wait};
use std::time::{Clock, Duration};

/// What the leader and the sessions of its followers share, and the quorum's answers.
pub(crate) struct Others<'a, R> {
    rt: &'a R,
    tail: Arc<Tail, Global>,
    quorum: Arc<Quorum, Global>,
    /// How many followers have to acknowledge a commit.
    count: u32,
    answers: Answers,
}

impl<R> Drop for Others<'_, R> {
    fn drop(self) {
        let Others {
            rt: _,
            tail,
            quorum,
            count: _,
            answers,
        } = self;
        drop(tail);
        drop(quorum);
        drop(answers);
    }
}

impl<'a, R: Wait + Clock> Others<'a, R> {
    /// `count` followers at these addresses have to acknowledge a commit. The log is durable up to `end`.
    pub fn new(
        rt: &'a R,
        alloc: Global,
        count: u32,
        allowed: Allowed,
        end: Lsn,
    ) -> Result<Others<'a, R>, AllocError>
        ensures count { IfOk result (λ others. others.count ≡ count) }
        ensures whose { IfOk result (λ others. blocks_of others.quorum.value
            ≡ allowed.blocks.items) }
    {
        Ok(Others {
            rt,
            tail: Arc::new(alloc, Tail::new(end))?,
            quorum: Arc::new(alloc, Quorum::new(alloc, SEATS, allowed)?)?,
            count,
            answers: Answers::Nothing,
        })
    }

    /// The tail, for the sessions.
    pub fn tail(&self) -> Result<Arc<Tail, Global>, AllocError> {
        Arc::try_clone(&self.tail)
    }

    /// The quorum, for the sessions.
    pub fn quorum(&self) -> Result<Arc<Quorum, Global>, AllocError> {
        Arc::try_clone(&self.quorum)
    }

    /// How many followers have to acknowledge a commit.
    pub fn count(&self) -> u32
        ensures { result ≡ self.now.count }
    {
        self.count
    }

    /// The log is durable up to there, so sessions may send it.
    pub fn show(&self, end: Lsn) {
        self.tail.raise(self.rt, end);
    }

    /// The same, and a round begins, if any follower has to acknowledge a commit. Returns what is then wanted of them:
    /// that they hold the log up to there, and say so in answer to a frame that is sent from now on.
    pub fn begin_round(&self, end: Lsn) -> Wanted
        ensures lsn { result.lsn ≡ end }
    {
        if self.count == 0 {
            self.show(end);
            return Wanted { lsn: end, round: 0 };
        }
        let round = self.tail.ask(self.rt, end);
        Wanted { lsn: end, round }
    }

    /// Waits, at most this long, until enough followers have acknowledged what is wanted. Returns whether they have.
    pub fn ask(&mut self, wanted: Wanted, at_most: Duration) -> bool
        ensures confirms { result ≡ true
            → IsConfirmed (blocks_of self.old.quorum.value) self.old.count self.new.answers
            wanted.lsn.0 }
        ensures fails { result ≡ false
            → IsMissed (blocks_of self.old.quorum.value) self.old.count self.new.answers
            wanted.lsn.0 }
        ensures keeps { (blocks : List Block) (k n : ℕ) → IsConfirmed blocks k self.old.answers n
            → IsConfirmed blocks k self.new.answers n }
        ensures misses { (blocks : List Block) (k n : ℕ) → IsMissed blocks k self.old.answers n
            → IsMissed blocks k self.new.answers n }
        ensures same { self.new.count ≡ self.old.count }
        ensures whose { self.new.quorum ≡ self.old.quorum }
    {
        let tally = self.quorum.wait_for(self.rt, self.count, wanted, at_most);
        self.answers.note(&tally);
        tally.is_enough
    }

    /// Writes the followers onto the board.
    pub fn note(&self, board: &Board) {
        board.set_seats(&self.quorum.members(self.rt));
    }
}
