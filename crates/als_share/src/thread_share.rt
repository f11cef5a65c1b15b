ghost use Rattle.std.specs.Prelude.{◌≡◌};
ghost use Rattle.als_share.specs.Ledgers.{Parted};

use crate::ledgers::Ledgers;
use crate::part::Part;
use std::marker::Model;

/// What one thread did by its handle, of each event. It takes no bytes.
pub struct Share<L: Ledgers> {
    pub(crate) part: Part<L>,
}

impl<L: Ledgers> Model for Share<L> {
    ghost use Rattle.std.specs.Prelude.{◌≡◌, ℕ, List};

    ghost Value = { List ℕ };

    ghost view = { λ s. s.part.tally };

    ghost invariant = { λ s. s.part.parts ≡ 1 };
}

// Written out: a derived drop is proved wherever a share is dropped, this one only here.
impl<L: Ledgers> Drop for Share<L> {
    fn drop(self) {
        let Share { part } = self;
        drop(part);
    }
}

impl<L: Ledgers> Share<L> {
    /// Its part of all ledgers.
    pub(crate) fn into_part(self) -> Part<L>
        ensures { result ≡ record { parts = 1; tally = self } }
    {
        let Share { part } = self;
        part
    }
}
