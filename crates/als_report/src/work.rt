/// What a primary has committed since it started.
#[derive(Clone, Copy, PartialEq)]
pub struct Work {
    /// Transactions that were answered as committed.
    pub transactions: u64,
    /// Groups that were answered, also of refusals alone.
    pub groups: u64,
    /// Microseconds from the last transaction of each group to its first answer.
    pub force_microseconds: u64,
}

impl Work {
    /// Nothing was committed.
    pub const NOTHING: Work = Work {
        transactions: 0,
        groups: 0,
        force_microseconds: 0,
    };
}
