ghost use Rattle.std.specs.Prelude.{◌≡◌, List, [], ◌∷◌, ◌++◌, OnOk};
ghost use Rattle.als_workers.specs.declared.offer.Offer.{Offer as Offered};

use crate::offer::Offer;
use std::alloc::AllocError;

/// Where a worker's way records what it offered to `give`.
pub trait OfferRecord {
    /// The leases that were offered, in order.
    ghost offers: { Self → List Offered };

    /// There is room for one more offer.
    ghost has_room: { Self → Type 0 };

    /// Makes room for one more offer.
    fn room(&mut self) -> Result<(), AllocError>
        ensures room { OnOk result (has_room self.new) }
        ensures offers { offers self.new ≡ offers self.old };

    /// Records an offer. It takes no memory.
    fn note(&mut self, offer: Offer)
        requires room { has_room self.old }
        ensures offers { offers self.new ≡ offers self.old ++ offer ∷ [] };
}
