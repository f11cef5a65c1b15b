ghost use Rattle.std.specs.Prelude.{◌≡◌};
ghost use Rattle.als_service.specs.Inquiries.{holds};

use als_record::FIRST_LSN;

/// What is seen of a held log.
#[derive(Clone, Copy, Debug, PartialEq, Eq)]
pub(crate) struct Standing {
    /// The epoch of its history. None: not known yet.
    pub epoch: Option<u64>,
    /// The LSN up to which it is acknowledged.
    pub end: u64,
}

impl Standing {
    /// Whether it has a record.
    pub fn holds(self) -> bool
        ensures { result ≡ holds self }
    {
        self.epoch.is_some() && FIRST_LSN.0 < self.end
    }
}
