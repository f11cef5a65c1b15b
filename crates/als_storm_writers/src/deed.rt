use als_engine::Decision;
use als_record::Body;
use als_writer::{Transaction, Written};

/// What a writer was answered.
#[derive(Drop)]
pub enum Deed {
    /// A transaction was committed.
    Committed(Transaction),
    /// A transaction was prepared.
    Prepared(Transaction),
    /// A transaction in doubt was decided.
    Decided(Decision),
}

impl Deed {
    /// Whether a commit record says it.
    pub fn commits(&self) -> bool {
        matches!(self, Deed::Committed(_) | Deed::Decided(Decision::Commit))
    }

    /// Whether a record says it.
    pub fn is_said_by(&self, body: &Body) -> bool {
        match self {
            Deed::Committed(_) | Deed::Decided(Decision::Commit) => matches!(body, Body::Commit),
            Deed::Prepared(_) => matches!(body, Body::Prepare),
            Deed::Decided(Decision::Rollback) => matches!(body, Body::Rollback),
        }
    }
}

/// A deed, and where it is in the log.
#[derive(Drop)]
pub struct Given {
    pub deed: Deed,
    pub written: Written,
}
