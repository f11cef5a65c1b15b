use crate::transaction::Transaction;
use als_engine::Decision;
use als_record::TransId;

/// What a client asks a primary for.
#[derive(Drop)]
pub enum Work {
    /// A transaction, committed where each of its asks holds.
    Commit(Transaction),
    /// The same, which a later decision commits or rolls back.
    Prepare(Transaction),
    /// A transaction in doubt committed, or rolled back.
    Decide { trans: TransId, verdict: Decision },
}
