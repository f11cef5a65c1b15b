ghost use Rattle.std.specs.Prelude.{◌≡◌};
ghost use Rattle.als_writer.specs.Closing.{extra_of};

/// How the records of a transaction close.
#[derive(Clone, Copy)]
pub(crate) enum Closing {
    /// By its commit and its end.
    Commit,
    /// By its prepare record: a coordinator decides it.
    Prepare,
}

impl Closing {
    /// The room that it takes besides what one that commits takes.
    pub fn extra(self) -> u64
        ensures { result ≡ extra_of self }
    {
        match self {
            Closing::Commit => 0,
            Closing::Prepare => 56,
        }
    }
}
