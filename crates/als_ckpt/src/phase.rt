/// Whether the log still follows its source.
#[derive(Clone, Copy, Debug, PartialEq, Eq)]
pub enum Phase {
    /// The log takes what its source sends.
    Following,
    /// The log takes nothing more, and is rolled back to what was committed.
    Sealed,
    /// The takeover is done.
    Primary,
}
