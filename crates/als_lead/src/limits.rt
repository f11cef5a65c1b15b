/// The most that a group may have: the works that one force makes durable.
#[derive(Clone, Copy, Debug, PartialEq, Eq)]
pub struct Limits {
    /// The most works, at least 1.
    pub transactions: usize,
    /// A group with this many log bytes takes no more.
    pub bytes: u64,
}
