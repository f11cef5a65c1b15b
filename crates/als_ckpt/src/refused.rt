use crate::fault::Fault;

/// A disk that a call does not keep, and why.
#[derive(Drop)]
pub struct Refused<D> {
    pub disk: D,
    pub fault: Fault,
}
