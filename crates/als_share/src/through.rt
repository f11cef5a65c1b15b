ghost use Rattle.std.specs.Prelude.{◌≡◌};

use crate::observed::Observed;
use crate::observer::Observer;
use als_engine::{Events, Fault};
use als_record::Lsn;
use als_ship::Voucher;

/// The voucher of events that are observed: it acknowledges by the events themselves.
#[derive(Drop)]
pub struct Through<V> {
    voucher: V,
}

impl<V> Through<V> {
    /// A voucher of the events, for events that are observed.
    pub fn new(voucher: V) -> Through<V>
        ensures { result.voucher ≡ voucher }
    {
        Through { voucher }
    }

    /// The voucher.
    pub fn end(self) -> V
        ensures { result ≡ self.voucher }
    {
        let Through { voucher } = self;
        voucher
    }
}

impl<O: Observer, E: Events, V: Voucher<E>> Voucher<Observed<O, E>> for Through<V> {
    ghost floor = { λ t. V.floor t.voucher };

    fn acknowledge(&mut self, events: &mut Observed<O, E>) -> Result<Lsn, Fault> {
        self.voucher.acknowledge(&mut events.events)
    }
}
