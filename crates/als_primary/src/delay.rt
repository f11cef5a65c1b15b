ghost use Rattle.std.specs.Prelude.{◌≡◌, ◌≤◌, ◌<◌, ◌+◌, ◌*◌, IfSome};

/// How long a primary has waited for its followers.
#[derive(Clone, Copy, Debug, PartialEq, Eq)]
pub(crate) struct Delay {
    /// The second in which it began to wait. None: it does not wait.
    since: Option<u64>,
    /// The whole minutes that were announced.
    told: u64,
}

impl Delay {
    /// It does not wait.
    pub const NONE: Delay = Delay {
        since: None,
        told: 0,
    };

    /// It waits in this second. Some: it has waited this many seconds, and that is to be announced, once in
    /// each minute after the first.
    pub fn note(&mut self, now: u64) -> Option<u64>
        // It has waited for a minute at least, and for a whole minute more than was announced.
        ensures due { IfSome result (λ s. (60 ≤ s) × (60 * self.old.told < s)) }
        // The same minute is not announced again.
        ensures noted { IfSome result (λ s. s < 60 * (self.new.told + 1)) }
    {
        let since = match self.since {
            Some(since) => since,
            None => {
                self.since = Some(now);
                self.told = 0;
                now
            }
        };
        let seconds = now.saturating_sub(since);
        if seconds / 60 <= self.told {
            return None;
        }
        self.told = seconds / 60;
        Some(seconds)
    }

    /// It no longer waits.
    pub fn end(&mut self)
        ensures { self.new.since ≡ None }
    {
        *self = Delay::NONE;
    }

    /// Whether it waits.
    pub fn is_on(&self) -> bool {
        self.since.is_some()
    }
}
