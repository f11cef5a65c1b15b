use crate::fault::Fault;

/// A device that could not be laid out, and why.
#[derive(Drop)]
pub struct Unformatted<D> {
    pub disk: D,
    /// `Device` or `Memory`.
    pub fault: Fault,
}
