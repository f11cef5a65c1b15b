ghost use Rattle.std.specs.Prelude.{◌≡◌};

use crate::fault::Fault;
use als_lease::PageLease;

/// A lease that was not taken in, handed back.
pub struct NotGiven {
    pub lease: PageLease,
    /// Stopped or Stranger.
    pub fault: Fault,
}

// Written out: a derived drop would be proved wherever a lease comes back, this one only here.
impl Drop for NotGiven {
    fn drop(self) {
        let NotGiven { lease, fault: _ } = self;
        drop(lease);
    }
}

impl NotGiven {
    /// The lease.
    pub fn into_lease(self) -> PageLease
        ensures { result ≡ self.lease }
    {
        let NotGiven { lease, fault: _ } = self;
        lease
    }
}
