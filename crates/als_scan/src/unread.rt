use crate::fault::Fault;

/// A device of which no log was read, as it was, and why.
#[derive(Drop)]
pub struct Unread<D> {
    pub disk: D,
    pub fault: Fault,
}
