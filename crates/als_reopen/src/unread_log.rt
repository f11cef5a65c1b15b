use crate::fault::Fault;

/// The devices of a log and of the pages, of which none was taken up, and why.
#[derive(Drop)]
pub(crate) struct UnreadLog<D> {
    pub(crate) log: D,
    pub(crate) pages: D,
    pub(crate) fault: Fault,
}
