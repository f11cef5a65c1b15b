ghost use Rattle.std.specs.Prelude.{◌≡◌};

use crate::store::Store;
use als_commits::Waiting;
use als_disk::BlockDisk;

/// A store over devices that were stopped, with the commits of its log.
pub struct Opened<D: BlockDisk> {
    pub store: Store<D>,
    /// The log's commits, which all wait for the readers.
    pub waiting: Waiting,
}

// Written out: a derived drop is proved wherever what was opened is dropped, this one only here.
impl<D: BlockDisk + Drop> Drop for Opened<D> {
    fn drop(self) {
        let Opened { store, waiting } = self;
        drop(store);
        drop(waiting);
    }
}

impl<D: BlockDisk> Opened<D> {
    /// The store and the commits.
    pub fn into_parts(self) -> (Store<D>, Waiting)
        ensures { (result.0 ≡ self.store) × (result.1 ≡ self.waiting) }
    {
        let Opened { store, waiting } = self;
        (store, waiting)
    }
}
