use crate::work::Work;

/// Receives how far a work has come.
pub trait Advance {
    /// So many of these many bytes are done.
    fn advances(&mut self, work: Work, done: u64, whole: u64);
}

/// Tells nobody.
#[derive(Clone, Copy, Debug)]
pub struct Unwatched;

impl Advance for Unwatched {
    fn advances(&mut self, _work: Work, _done: u64, _whole: u64) {}
}

impl<A: Advance> Advance for &mut A {
    fn advances(&mut self, work: Work, done: u64, whole: u64) {
        (**self).advances(work, done, whole);
    }
}
