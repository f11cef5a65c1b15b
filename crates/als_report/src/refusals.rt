/// What a primary has refused since it started.
#[derive(Clone, Copy, PartialEq)]
pub struct Refusals {
    /// Transactions and decisions that were answered as refused.
    pub count: u64,
    /// The number of the last refusal that has one. None: none had.
    pub last: Option<u64>,
}

impl Refusals {
    /// Nothing was refused.
    pub const NOTHING: Refusals = Refusals {
        count: 0,
        last: None,
    };
}
