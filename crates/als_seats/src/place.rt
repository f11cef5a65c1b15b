ghost use Rattle.std.specs.Prelude.{◌≡◌, ◌<◌, ◌^◌, Some, IfSome};
ghost use Rattle.als_seats.specs.Places.{number_of};

/// Places of a seat: the most questions that an asker may put at a time.
pub const PLACES: usize = 600;

/// The place that the outcome of a question goes to.
#[derive(Clone, Copy, Debug, PartialEq, Eq)]
pub struct Place {
    pub seat: u32,
    /// Its index among the questions of its seat.
    pub at: u32,
}

impl Place {
    ghost use Rattle.als_seats.specs.declared.place.Place.{Place as AnyPlace};

    /// The number of a place. The places of one seat have consecutive numbers.
    pub fn number(self) -> u64
        ensures { result ≡ number_of self }
    {
        PLACES as u64 * u64::from(self.seat) + u64::from(self.at)
    }

    /// The place that has this number. None: no seat has it.
    pub fn of(number: u64) -> Option<Place>
        ensures number { IfSome result (λ p. number_of p ≡ number) }
        // No other place of a seat has it.
        ensures place { (p : AnyPlace) → p.seat < 2 ^ 32 → p.at < 600 → number_of p ≡ number
            → result ≡ Some p }
    {
        let seat = u32::try_from(number / PLACES as u64).ok()?;
        let at = (number % PLACES as u64) as u32;
        Some(Place { seat, at })
    }
}
