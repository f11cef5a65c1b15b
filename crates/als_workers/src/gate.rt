/// What a thread does next. `Redone` alone names what it has just done.
#[derive(Clone, Copy, Debug, PartialEq, Eq)]
pub enum Point {
    /// A lease.
    Lend,
    /// A job from the queue.
    Take,
    /// A turn of redo on the lease of this number.
    Redo(u64),
    /// That turn is over.
    Redone(u64),
    /// The lease of this number goes back to the engine.
    Give(u64),
    /// A round over the dirty pages.
    Flush,
    /// A checkpoint.
    Ckpt,
    /// What is held is forced to the log, and acknowledged.
    Force,
}

/// What each thread asks before it goes on. A gate may wait before it answers.
pub trait Gate {
    /// Whether the thread may go on past this point. With `false` it ends.
    fn pass(&self, point: Point) -> bool;

    /// Whether nothing more is fed.
    fn last(&self) -> bool;
}
