use als_writer::{NotDecided, Refusal, Written};

/// The answer to what a client asked for.
#[derive(Clone, Copy)]
pub enum Answer {
    /// The transaction is committed and durable, and enough others hold it.
    Committed(Written),
    /// The transaction is prepared: its prepare record is durable, and enough others hold it. It is in
    /// doubt until a decision.
    Prepared(Written),
    /// The record that decides the transaction is durable, and enough others hold it.
    Decided(Written),
    /// Nothing of the transaction is committed or prepared.
    Refused(Refusal),
    /// Nothing of the decision is in the log.
    NotDecided(NotDecided),
    /// It is in the log, but the force failed, or too few others hold it: a restart or a takeover may
    /// find it or not.
    Unknown(Written),
    /// Nothing of it is done. The reason is withheld: too few others hold what refused it, so a takeover
    /// may take that back.
    Withheld,
}
