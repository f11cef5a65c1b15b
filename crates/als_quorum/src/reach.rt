ghost use Rattle.std.specs.Prelude.{◌≡◌, max};

use als_record::Lsn;

/// Up to where a log may be read.
#[derive(Clone, Copy, Debug, PartialEq, Eq)]
pub struct Reach {
    /// Each byte below it is durable and never changes.
    pub end: Lsn,
    /// The log ends there: nothing more comes.
    pub is_closed: bool,
}

impl Reach {
    /// The reach once the log is durable up to there. An older end changes nothing.
    pub(crate) fn raised(self, end: Lsn) -> Reach
        ensures { result ≡ record self { end = record { 0 = max self.end.0 end.0 } } }
    {
        Reach {
            end: Lsn(self.end.0.max(end.0)),
            ..self
        }
    }

    /// Whether a session that has read up to there has to wait for more.
    pub(crate) fn is_awaited(self, at: u64) -> bool {
        self.end.0 <= at && !self.is_closed
    }
}
