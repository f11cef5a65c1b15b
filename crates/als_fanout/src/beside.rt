use crate::outcome::Outcome;

/// What the thread that prints does beside.
pub(crate) trait Beside {
    /// Does what is due, now and then. It may have something to say.
    fn turn(&mut self) -> Option<Outcome>;

    /// The shipper ends: nobody waits for it any more.
    fn end(&mut self);
}
