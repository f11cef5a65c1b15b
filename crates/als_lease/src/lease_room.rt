ghost use Rattle.std.specs.Prelude.{◌≡◌, ◌<◌, length, take};
ghost use Rattle.als_page.specs.Page.{id_of, state_of};
ghost use Rattle.als_page.specs.Changes.{AreNext};
ghost use Rattle.als_lease.specs.Lease.{lease_for};

use crate::page_lease::PageLease;
use crate::work::Work;
use als_page::Page;
use als_record::Change;
use std::alloc::{AllocError, Global};
use std::marker::Model;

/// The memory of a lease. It is taken before anything changes, and is used again and again.
pub struct LeaseRoom {
    work: Box<Work>,
}

// Written out: a derived drop is proved wherever a room is dropped, this one only here.
impl Drop for LeaseRoom {
    fn drop(self) {
        let LeaseRoom { work } = self;
        drop(work);
    }
}

// One room is as good as another.
impl Model for LeaseRoom {
    ghost Value = { Unit {0} };

    ghost view = { λ _. tt };
}

impl LeaseRoom {
    /// Room for one lease.
    pub fn new(alloc: Global) -> Result<LeaseRoom, AllocError> {
        Ok(LeaseRoom {
            work: Box::new(alloc, Work::empty())?,
        })
    }

    /// A lease of this number: of a page as it is, with the first changes that wait for it, the
    /// lesser of 64 and all. It takes no memory.
    pub fn fill(self, number: u64, base: &Page, waiting: &[Change]) -> PageLease
        requires some { 0 < length waiting.now }
        requires next { AreNext (id_of base.now) (state_of base.now).lsn (take 64 waiting.now) }
        ensures { result ≡ lease_for number (id_of base.now) (state_of base.now) waiting.now }
    {
        let LeaseRoom { work } = self;
        let mut work = work;
        work.fill(number, base, waiting);
        PageLease { work }
    }
}

impl PageLease {
    /// The memory of a lease that has ended. It takes none.
    pub fn into_room(self) -> LeaseRoom {
        LeaseRoom {
            work: self.into_work(),
        }
    }
}
