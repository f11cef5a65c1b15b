ghost use Rattle.std.specs.Prelude.{◌≡◌, ◌<◌};
ghost use Rattle.als_service.specs.Patience.{next_factor};

use als_operate::silence;
use std::time::Duration;

/// Bytes of its log that a primary reads in a second to answer, on a busy machine.
const READ: u64 = 32 * 1_048_576;

/// An answer is waited for at most so many times as long as at first.
const MOST: u64 = 16;

/// How long a primary may take to answer a question: twice as long after each try that was over, so that one which needs
/// its time gets through.
#[derive(Drop)]
pub(crate) struct Patience {
    /// So many times as long as at first.
    factor: u64,
    ghost few: { factor < 32 },
}

impl Patience {
    /// That of the first try.
    pub fn new() -> Patience
        ensures { result.factor ≡ 1 }
    {
        Patience { factor: 1 }
    }

    /// The last try was over.
    pub fn was_over(&mut self)
        ensures { self.new.factor ≡ next_factor self.old.factor }
    {
        if self.factor < MOST {
            let factor = self.factor * 2;
            *self = Patience { factor };
        }
    }

    /// An answer came.
    pub fn was_answered(&mut self)
        ensures { self.new.factor ≡ 1 }
    {
        *self = Patience { factor: 1 };
    }

    /// How long an answer about so many bytes of log may take, where each silence may be of so many seconds: as long as
    /// all that a primary sends, and as long as it reads for it; all that several times. None: as long as it likes.
    pub fn limit(&self, timeout: u64, end: u64) -> Option<Duration> {
        match timeout {
            0 => None,
            _ => silence(
                timeout
                    .saturating_add(end / READ)
                    .saturating_mul(self.factor),
            ),
        }
    }
}
