use crate::control_state::ControlState;

/// A control state, and the one that took its place.
#[derive(Clone, Copy, Debug, PartialEq, Eq)]
pub struct Restated {
    /// What the device said.
    pub before: ControlState,
    /// What it says now.
    pub after: ControlState,
}
