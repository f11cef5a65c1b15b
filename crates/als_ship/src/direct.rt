ghost use Rattle.std.specs.Prelude.{◌≡◌};

use crate::voucher::Voucher;
use als_engine::{Events, Fault};
use als_record::Lsn;

/// Acknowledges by `ctl_sync` of a standby that nobody else drives.
#[derive(Clone, Copy, Debug)]
pub struct Direct {
    /// The greatest answer.
    greatest: u64,
}

impl Direct {
    /// A voucher that has answered nothing.
    pub fn new() -> Direct
        ensures { result.greatest ≡ 0 }
    {
        Direct { greatest: 0 }
    }
}

impl<E: Events> Voucher<E> for Direct {
    ghost floor = { λ d. d.greatest };

    fn acknowledge(&mut self, events: &mut E) -> Result<Lsn, Fault> {
        match events.ctl_sync() {
            Ok(lsn) => {
                self.greatest = self.greatest.max(lsn.0);
                Ok(lsn)
            }
            Err(fault) => Err(fault),
        }
    }
}
