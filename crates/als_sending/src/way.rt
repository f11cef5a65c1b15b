/// How far a session has come.
#[derive(Clone, Copy, Debug)]
pub(crate) struct Way {
    /// The own epoch.
    pub epoch: u32,
    /// How many frames may be without an answer.
    pub window: u32,
    /// The offset up to which the log was sent.
    pub at: u64,
    /// The end that the log told last.
    pub end: u64,
    /// How many frames are without an answer.
    pub ahead: u32,
}
