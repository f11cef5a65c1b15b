use als_followers::{Quorum, Tail};
use als_report::Board;
use std::alloc::Global;
use std::sync::{Arc, Wait};
use std::time::{Clock, Duration};

/// Milliseconds after which it is written again who follows.
const MOMENT: u64 = 500;

/// Writes who follows a standby on its board, until its tail closes. One thread does.
pub(crate) struct Onlookers<R> {
    pub rt: R,
    pub board: Arc<Board, Global>,
    pub tail: Arc<Tail, Global>,
    pub quorum: Arc<Quorum, Global>,
}

impl<R: Drop> Drop for Onlookers<R> {
    fn drop(self) {
        let Onlookers {
            rt,
            board,
            tail,
            quorum,
        } = self;
        drop(rt);
        drop(board);
        drop(tail);
        drop(quorum);
    }
}

impl<R: Wait + Clock> Onlookers<R> {
    /// Writes them now and then. No log reaches the offset that is waited for.
    pub fn run(&mut self) {
        for _ in self.rt.forever() {
            self.board.set_seats(&self.quorum.members(&self.rt));
            let moment = Duration::from_millis(MOMENT);
            let round = self.tail.round(&self.rt);
            let reach = self.tail.wait_past(&self.rt, u64::MAX, round, moment);
            if reach.is_closed {
                break;
            }
        }
    }
}
