use als_writer::{NotDecided, Refusal, Written};

/// The outcome of what a client asked for.
#[derive(Clone, Copy)]
pub enum Outcome {
    /// The transaction is committed and durable.
    Committed(Written),
    /// The transaction is prepared and durable. It is in doubt until a decision.
    Prepared(Written),
    /// The record that decides the transaction is durable.
    Decided(Written),
    /// Nothing of the transaction is committed or prepared, and nothing will be.
    Refused(Refusal),
    /// Nothing of the decision is in the log, and nothing will be.
    NotDecided(NotDecided),
    /// It is in the log, but the force failed: a restart may find it or not.
    Unknown(Written),
    /// Nothing of it is in the log, and nothing will be: it was not begun in time, or the reason of its
    /// refusal is withheld.
    NotBegun,
    /// The writer took it and never answered: it may be done or not.
    Lost,
}
