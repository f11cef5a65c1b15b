use crate::control_state::ControlState;
use als_past::Past;

/// Writes of control states, one after another, for clauses alone.
#[derive(Drop)]
pub(crate) enum Made {
    Nothing,
    Done(Past<Made>, Past<ControlState>),
    Failed(Past<Made>, Past<ControlState>),
}
