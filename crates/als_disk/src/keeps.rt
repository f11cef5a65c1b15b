/// How much of a file's contents stays in memory.
#[derive(Clone, Copy, Drop)]
pub(crate) enum Keeps {
    /// Each piece.
    All,
    /// The piece of the highest block that was written, and so many pieces in front of it.
    Newest(u64),
}
