ghost use Rattle.std.specs.Prelude.{◌≡◌, ◌<◌, ◌-◌, ◌↔◌, IsTrue};

use std::marker::Model;

/// How many calls it takes until one fails: 1 for the next call, 0 for none.
#[derive(Clone, Copy, Debug, PartialEq, Eq)]
pub(crate) struct Countdown {
    left: u64,
}

impl Model for Countdown {
    ghost use Rattle.std.specs.Prelude.{ℕ};

    ghost Value = { ℕ };

    ghost view = { λ countdown. countdown.left };

    ghost inverse = { λ n. record { left = n } };
}

impl Countdown {
    /// No call fails.
    pub(crate) const NEVER: u64 = 0;

    pub(crate) fn new(left: u64) -> Countdown
        ensures { result ≡ left }
    {
        Countdown { left }
    }

    pub(crate) fn left(self) -> u64
        ensures { result ≡ self }
    {
        self.left
    }

    /// What is left after one call.
    pub(crate) fn next(self) -> Countdown
        ensures { result ≡ self - 1 }
    {
        Countdown::new(self.left.saturating_sub(1))
    }

    /// Whether the next call fails.
    pub(crate) fn burns(self) -> bool
        ensures { IsTrue result ↔ (self ≡ 1) }
    {
        self.left == 1
    }
}
