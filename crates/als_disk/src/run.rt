/// Blocks in a row that were written to a device and not yet to its file.
#[derive(Clone, Copy, Drop)]
pub(crate) struct Run {
    pub(crate) from: u64,
    /// The block behind the last one.
    pub(crate) to: u64,
}

impl Run {
    /// No block.
    pub(crate) const NONE: Run = Run { from: 0, to: 0 };
}
