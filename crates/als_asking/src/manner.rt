ghost use Rattle.std.specs.Prelude.{◌≡◌};
ghost use Rattle.als_asking.specs.Taking.{work_of};

use als_writer::{Transaction, Work};

/// What is done with a transaction whose comparisons all succeed.
#[derive(Clone, Copy, Debug, PartialEq, Eq)]
pub enum Manner {
    /// It commits.
    Commit,
    /// It prepares: a later decision commits it or rolls it back.
    Prepare,
}

impl Manner {
    /// The work of doing that with a transaction.
    pub fn work_of(self, transaction: Transaction) -> Work
        ensures { result ≡ work_of self transaction }
    {
        match self {
            Manner::Commit => Work::Commit(transaction),
            Manner::Prepare => Work::Prepare(transaction),
        }
    }
}
