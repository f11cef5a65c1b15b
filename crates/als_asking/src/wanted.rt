use als_writer::Transaction;

/// What the body of a request asks for.
#[derive(Drop)]
pub enum Wanted {
    /// One transaction.
    One(Transaction),
    /// An array of transactions, each on its own.
    Each(Vec<Transaction>),
}
