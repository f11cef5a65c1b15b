use crate::fault::Fault;

/// A device whose log was not taken up again, as it was, and why.
#[derive(Drop)]
pub struct Unopened<D> {
    pub disk: D,
    pub fault: Fault,
}
