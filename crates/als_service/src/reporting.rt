use crate::cascade::Cascade;
use als_engine::{History, State as EngineState, Status};
use als_record::Lsn;
use als_report::{Board, State};
use als_share::{Observed, Observer};
use std::sync::Wait;

/// The observer that stores each status that is asked for on a board, which the threads that answer
/// requests read, and tells the sessions of the standby's own followers what is durable.
#[derive(Drop)]
pub struct BoardReporter<'a, R> {
    rt: &'a R,
    board: &'a Board,
    /// None: nobody may follow the standby.
    cascade: Option<&'a Cascade>,
}

/// Events whose statuses are stored on a board.
pub type Reported<'a, R, E> = Observed<BoardReporter<'a, R>, E>;

impl<'a, R> BoardReporter<'a, R> {
    /// An observer that stores them there.
    pub fn new(rt: &'a R, board: &'a Board, cascade: Option<&'a Cascade>) -> BoardReporter<'a, R> {
        BoardReporter { rt, board, cascade }
    }
}

impl<R: Wait> Observer for BoardReporter<'_, R> {
    // Whether a primary sends is not part of a status.
    fn after_status(&self, status: &Status) {
        let board = self.board;
        board.set_log(status.end, status.acknowledged);
        board.set_redo(status.pending as u64, status.leases as u64);
        match status.state {
            EngineState::Recovering | EngineState::Following => {}
            EngineState::Refusing { .. } => board.set_state(State::Refusing),
            EngineState::Sealed => board.set_state(State::Sealed),
            EngineState::Primary => board.set_state(State::Primary),
            EngineState::Stopped => board.set_state(State::Stopped),
        }
    }

    fn after_ctl_sync(&self, acknowledged: Lsn) {
        if let Some(cascade) = self.cascade {
            cascade.synced(self.rt, acknowledged);
        }
    }

    fn after_adopt(&self, history: History) {
        self.board.set_epoch(u64::from(history.epoch()));
        if let Some(cascade) = self.cascade {
            cascade.adopted(self.rt, history);
        }
    }
}
