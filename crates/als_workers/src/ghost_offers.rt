ghost use Rattle.std.specs.Prelude.{◌≡◌, []};
ghost use Rattle.als_workers.specs.Offers.{offers_in};

use crate::offer::Offer;
use crate::offer_record::OfferRecord;
use als_past::Past;
use std::alloc::AllocError;
use std::mem::replace;

/// Offers, one after another. For clauses alone.
#[derive(Drop)]
pub(crate) enum Offered {
    Nothing,
    Then(Past<Offered>, Offer),
}

/// Offers that contracts alone see: they take no bytes and no time, however long a worker runs.
#[derive(Drop)]
pub struct GhostOffers {
    told: Past<Offered>,
}

impl GhostOffers {
    /// Nothing was offered yet.
    pub fn new() -> GhostOffers
        ensures { offers_in result.told.value ≡ [] }
    {
        GhostOffers {
            told: Past::of(&Offered::Nothing),
        }
    }
}

impl OfferRecord for GhostOffers {
    ghost use Rattle.std.specs.Prelude.{⊤};
    ghost use Rattle.als_workers.specs.Offers.{offers_in};

    ghost offers = { λ g. offers_in g.told.value };

    ghost has_room = { λ g. ⊤ };

    fn room(&mut self) -> Result<(), AllocError> {
        Ok(())
    }

    fn note(&mut self, offer: Offer) {
        let before = replace(&mut self.told, Past::of(&Offered::Nothing));
        self.told = Past::of(&Offered::Then(before, offer));
    }
}
