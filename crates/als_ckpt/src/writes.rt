ghost use Rattle.std.specs.Prelude.{◌≡◌, ◌∷◌, ◌++◌, [], true, false};
ghost use Rattle.als_ckpt.specs.Writes.{states_of, is_sure};

use crate::control_state::ControlState;
use crate::made::Made;
use als_past::Past;
use std::mem::replace;

/// The control states written since the last sync, for clauses alone.
#[derive(Drop)]
pub(crate) struct Writes {
    made: Past<Made>,
}

impl Writes {
    /// None.
    pub(crate) fn none() -> Writes
        ensures states { states_of result ≡ [] }
        ensures sure { is_sure result ≡ true }
    {
        Writes {
            made: Past::of(&Made::Nothing),
        }
    }

    /// A write that was answered as done.
    pub(crate) fn note_done(&mut self, state: &ControlState)
        ensures states { states_of self.new ≡ states_of self.old ++ state.now ∷ [] }
        ensures sure { is_sure self.new ≡ is_sure self.old }
    {
        let before = replace(&mut self.made, Past::of(&Made::Nothing));
        self.made = Past::of(&Made::Done(before, Past::of(state)));
    }

    /// A write that was answered as failed, and may have been done.
    pub(crate) fn note_failed(&mut self, state: &ControlState)
        ensures states { states_of self.new ≡ states_of self.old ++ state.now ∷ [] }
        ensures sure { is_sure self.new ≡ false }
    {
        let before = replace(&mut self.made, Past::of(&Made::Nothing));
        self.made = Past::of(&Made::Failed(before, Past::of(state)));
    }
}
