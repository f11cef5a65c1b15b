use als_drive::Progress;
use als_progress::{Advance, Work};

/// Tells nobody.
#[derive(Clone, Copy)]
pub(crate) struct Quiet;

impl Progress for Quiet {
    fn waits(&mut self, _changes: u64) {}
}

impl Advance for Quiet {
    fn advances(&mut self, _work: Work, _done: u64, _whole: u64) {}
}
