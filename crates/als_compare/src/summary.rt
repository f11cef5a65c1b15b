/// What a node says of the log that it holds.
#[derive(Clone, Copy, Debug)]
pub struct Summary {
    /// The epoch of the node's history.
    pub epoch: u32,
    /// The end of the text, in bytes from its begin.
    pub end: u64,
    /// The SHA-256 of the text below that end.
    pub digest: [u8; 32],
}
