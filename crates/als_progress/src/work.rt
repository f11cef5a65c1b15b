/// What is done with bytes, one after another.
#[derive(Clone, Copy, Debug, PartialEq, Eq)]
pub enum Work {
    /// Files are read into memory.
    Copy,
    /// The records of a log are read and judged.
    Judge,
    /// The digest of a log is made.
    Digest,
    /// Pages are compared with their log.
    Compare,
    /// What a log has above an LSN is kept.
    Keep,
    /// A file is made longer.
    Extend,
}
