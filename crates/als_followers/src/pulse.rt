/// Whether the sessions of a log beat.
pub trait Pulse {
    /// Whether a follower that has all of the log is now sent a byte that it has.
    fn beats(&self) -> bool;
}

/// The pulse of a node that no primary sends to: its sessions always beat.
#[derive(Clone, Copy, Debug, Drop)]
pub struct Always;

impl Pulse for Always {
    fn beats(&self) -> bool {
        true
    }
}
