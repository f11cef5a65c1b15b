ghost use Rattle.std.specs.Prelude.{◌≡◌};
ghost use Rattle.als_service.specs.Pauses.{next_pause, next_refusal};

/// The shortest pause, in milliseconds.
const SHORT: u64 = 100;

/// The longest one.
const LONG: u64 = 5_000;

/// The shortest pause after a refusal.
const REFUSED: u64 = 5_000;

/// The longest one.
const REFUSED_LONG: u64 = 60_000;

/// How long is waited before the primary is asked again.
#[derive(Drop)]
pub(crate) struct Pause {
    millis: u64,
    /// The pause after the last refusal.
    refused: u64,
}

impl Pause {
    /// At first it is asked at once.
    pub fn new() -> Pause
        ensures at_once { result.millis ≡ 0 }
        ensures unrefused { result.refused ≡ 0 }
    {
        Pause {
            millis: 0,
            refused: 0,
        }
    }

    /// The primary sent something new: the next time it is asked at once again.
    pub fn begin_again(&mut self)
        ensures at_once { self.new.millis ≡ 0 }
        ensures unrefused { self.new.refused ≡ 0 }
    {
        self.millis = 0;
        self.refused = 0;
    }

    /// So many milliseconds are waited now; the next time twice as many, up to the longest pause.
    pub fn next(&mut self) -> u64
        ensures now { result ≡ self.old.millis }
        ensures then { self.new.millis ≡ next_pause self.old.millis }
    {
        let millis = self.millis;
        self.millis = if millis < SHORT {
            SHORT
        } else if millis < LONG / 2 {
            millis * 2
        } else {
            LONG
        };
        millis
    }

    /// So many milliseconds are waited after a refusal: the first time the shortest pause of these, then
    /// twice as many each time, up to the longest one.
    pub fn next_refused(&mut self) -> u64
        ensures now { result ≡ next_refusal self.old.refused }
        ensures then { self.new.refused ≡ result }
    {
        let before = self.refused;
        let millis = if before < REFUSED {
            REFUSED
        } else if before < REFUSED_LONG / 2 {
            before * 2
        } else {
            REFUSED_LONG
        };
        self.refused = millis;
        millis
    }
}
