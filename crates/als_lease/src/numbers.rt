ghost use Rattle.std.specs.Prelude.{◌≡◌, Some};
ghost use Rattle.als_lease.specs.Numbers.{next_number};

use std::marker::Model;

/// The numbers of leases, each given once, in rising order.
#[derive(Drop)]
pub struct Numbers {
    // None: the last one was given.
    next: Option<u64>,
}

impl Model for Numbers {
    ghost use Rattle.std.specs.Prelude.{ℕ, Option};

    ghost Value = { Option ℕ };

    ghost view = { λ n. n.next };
}

impl Numbers {
    /// The numbers from one on.
    pub fn from(first: u64) -> Numbers
        ensures { result ≡ Some first }
    {
        Numbers { next: Some(first) }
    }

    /// The next number, which is not given yet; none once all are given.
    pub fn peek(&self) -> Option<u64>
        ensures { result ≡ self.now }
    {
        self.next
    }

    /// Gives the next number.
    pub fn draw(&mut self) -> Option<u64>
        ensures value { result ≡ self.old }
        ensures next { self.new ≡ next_number self.old }
    {
        let number = self.next?;
        self.next = number.checked_add(1);
        Some(number)
    }
}
