ghost use Rattle.std.specs.Prelude.{◌≡◌, [], ◌∷◌, ◌++◌, OnOk, IfErr};
ghost use Rattle.als_engine.specs.declared.event.Event.TheVariants as event;
ghost use Rattle.als_engine.specs.Tally.{TellsOk};
ghost use Rattle.als_workers.specs.Offers.{events_of, record_of, offer_of};
ghost use Rattle.als_workers.specs.Tallies.{AloneRaise};

use crate::offer::Offer;
use crate::offer_record::OfferRecord;
use als_engine::{Events, NotGiven};
use als_lease::PageLease;
use std::alloc::AllocError;

/// A worker's own way to give leases back. It records each lease that it offered.
pub struct Via<E, O> {
    events: E,
    offers: O,
}

// Written out: a derived drop is proved wherever a way is dropped, this one only here.
impl<E: Drop, O: Drop> Drop for Via<E, O> {
    fn drop(self) {
        let Via { events, offers } = self;
        drop(events);
        drop(offers);
    }
}

impl<E: Events, O: OfferRecord> Via<E, O> {
    /// A way to these events, which goes on with this record.
    pub fn new(events: E, offers: O) -> Via<E, O>
        ensures events { events_of result ≡ events }
        ensures offers { O.offers (record_of result) ≡ O.offers offers }
    {
        Via { events, offers }
    }

    /// Makes room for one more offer.
    pub fn room(&mut self) -> Result<(), AllocError>
        ensures room { OnOk result (O.has_room (record_of self.new)) }
        ensures offers { O.offers (record_of self.new) ≡ O.offers (record_of self.old) }
        ensures events { events_of self.new ≡ events_of self.old }
    {
        self.offers.room()
    }

    /// Offers a lease to `give`, and records that. It takes no memory.
    pub fn give(&mut self, lease: PageLease) -> Result<(), NotGiven>
        requires room { O.has_room (record_of self.old) }
        ensures offers { O.offers (record_of self.new)
            ≡ O.offers (record_of self.old) ++ offer_of lease ∷ [] }
        ensures told { TellsOk event.Give result (E.tally (events_of self.old))
            (E.tally (events_of self.new)) }
        ensures gives { AloneRaise (event.Give ∷ []) (E.tally (events_of self.old))
            (E.tally (events_of self.new)) }
        ensures book { E.book (events_of self.new) ≡ E.book (events_of self.old) }
        ensures back { IfErr result (λ r. r.lease ≡ lease) }
    {
        self.offers.note(Offer {
            number: lease.number(),
            turn: lease.turn(),
            finished: lease.finished(),
        });
        self.events.give(lease)
    }

    /// The events, and the record of what was offered to them.
    pub fn end(self) -> (E, O)
        ensures events { result.0 ≡ events_of self }
        ensures offers { O.offers result.1 ≡ O.offers (record_of self) }
    {
        let Via { events, offers } = self;
        (events, offers)
    }
}
