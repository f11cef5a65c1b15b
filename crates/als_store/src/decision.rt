/// What becomes of a transaction in doubt, as its coordinator decides (Mohan, Lindsay and Obermarck,
/// TODS 1986: the second phase of a commit).
#[derive(Clone, Copy, Debug, PartialEq, Eq)]
pub enum Decision {
    /// It commits: its updates stay.
    Commit,
    /// It rolls back: its updates are undone.
    Rollback,
}
