/// What the leader found when it woke.
#[derive(Clone, Copy, Debug, PartialEq, Eq)]
pub enum Waited {
    /// A question waits.
    Asks,
    /// Nobody asked within the time.
    Idle,
    /// Nothing waits, and nothing is put any more.
    Closed,
}
