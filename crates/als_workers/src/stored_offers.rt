ghost use Rattle.std.specs.Prelude.{◌≡◌, []};

use crate::offer::Offer;
use crate::offer_record::OfferRecord;
use std::alloc::{AllocError, Global};

/// Offers in memory, 24 bytes for each one, for whoever asks what a worker offered. A session of any
/// length uses `GhostOffers`.
#[derive(Drop)]
pub struct StoredOffers {
    offers: Vec<Offer>,
}

impl StoredOffers {
    /// Nothing was offered yet. It takes no memory.
    pub fn new(alloc: Global) -> StoredOffers
        ensures { result.offers.items ≡ [] }
    {
        StoredOffers {
            offers: Vec::new(alloc),
        }
    }

    /// What was offered, in order.
    pub fn offers(&self) -> &[Offer]
        ensures { result.now ≡ self.now.offers.items }
    {
        &self.offers
    }
}

impl OfferRecord for StoredOffers {
    ghost use Rattle.std.specs.Prelude.{◌<◌};
    ghost use Rattle.std.specs.Vec.{vec_len, vec_capacity};

    ghost offers = { λ s. s.offers.items };

    ghost has_room = { λ s. vec_len s.offers < vec_capacity s.offers };

    fn room(&mut self) -> Result<(), AllocError> {
        self.offers.reserve(1)
    }

    fn note(&mut self, offer: Offer) {
        self.offers.push_reserved(offer);
    }
}
