ghost use Rattle.std.specs.Prelude.{◌≡◌};
ghost use Rattle.als_ckpt.specs.Control.{first_state};

use crate::phase::Phase;
use crate::region::Region;
use als_epochs::History;
use als_record::{FIRST_LSN, Lsn};

/// What a control block says.
#[derive(Clone, Copy, Debug, PartialEq, Eq)]
pub struct ControlState {
    /// Whether the log still follows its source.
    pub phase: Phase,
    /// The region of the published checkpoint.
    pub published: Option<Region>,
    /// The log is stable up to this LSN.
    pub mark: Lsn,
    /// The end of the log at the published checkpoint, 0 for none.
    pub position: Lsn,
    /// The end of the log at its seal, 0 while it follows its source.
    pub seal: Lsn,
    /// The seals of all takeovers before the node, its own one too.
    pub history: History,
}

impl ControlState {
    /// The control state of a new database.
    pub(crate) fn first() -> ControlState
        ensures { result ≡ first_state }
    {
        ControlState {
            phase: Phase::Following,
            published: None,
            mark: FIRST_LSN,
            position: Lsn(0),
            seal: Lsn(0),
            history: History::empty(),
        }
    }

    /// The same state with another mark.
    pub(crate) fn with_mark(self, mark: Lsn) -> ControlState
        ensures { result ≡ record self { mark = mark } }
    {
        ControlState { mark, ..self }
    }
}
