use als_report::Board;
use std::cell::Cell;
use std::time::Clock;

/// How far a session is.
#[derive(Clone, Copy, Debug, PartialEq, Eq)]
enum Stage {
    /// Nothing came.
    Silent,
    /// Something came.
    Came,
    /// A frame was acknowledged, and no other one waited for.
    Answered,
    /// Behind a frame that was acknowledged another one was waited for.
    GoesOn,
}

/// The signs of a primary, which a session's two directions share. A frame is one once it was acknowledged and
/// another one is waited for: the empty frame of a session that brings nothing else is none.
pub(crate) struct Signs<'a> {
    board: &'a Board,
    stage: Cell<Stage>,
}

impl Drop for Signs<'_> {
    fn drop(self) {
        let Signs { board: _, stage: _ } = self;
    }
}

impl<'a> Signs<'a> {
    /// Those of a session that begins, for this board.
    pub fn new(board: &'a Board) -> Signs<'a> {
        Signs {
            board,
            stage: Cell::new(Stage::Silent),
        }
    }

    /// The board.
    pub fn board(&self) -> &'a Board {
        self.board
    }

    /// Whether nothing came.
    pub fn is_silent(&self) -> bool {
        self.stage.get() == Stage::Silent
    }

    /// More is waited for.
    pub fn waited_for(&self) {
        if self.stage.get() == Stage::Answered {
            self.stage.set(Stage::GoesOn);
            self.board.note_answer();
        }
    }

    /// Bytes came.
    pub fn came<C: Clock>(&self, clock: &C) {
        if self.stage.get() == Stage::Silent {
            self.stage.set(Stage::Came);
        }
        self.board.note_frame(clock);
    }

    /// Something was written. The question of a session is before any frame; whatever is written after one is its
    /// acknowledgement.
    pub fn answered(&self) {
        match self.stage.get() {
            Stage::Silent | Stage::Answered => {}
            Stage::Came => self.stage.set(Stage::Answered),
            Stage::GoesOn => self.board.note_answer(),
        }
    }
}
