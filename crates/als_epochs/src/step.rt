/// What a node does with a history that is offered and not refused.
#[derive(Clone, Copy, Debug, PartialEq, Eq)]
pub enum Step {
    /// It is the own one.
    Stay,
    /// It goes on from the own one, and takes its place.
    Adopt,
}
