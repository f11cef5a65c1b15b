/// Receives the progress of a long redo.
pub trait Progress {
    /// So many changes wait for redo.
    fn waits(&mut self, changes: u64);
}

/// Reports to nobody.
#[derive(Clone, Copy, Debug)]
pub struct Silent;

impl Progress for Silent {
    fn waits(&mut self, _changes: u64) {}
}
