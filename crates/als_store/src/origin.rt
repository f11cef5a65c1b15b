ghost use Rattle.std.specs.Prelude.{◌≡◌};
ghost use Rattle.als_store.specs.Origin.{origin_of};

use als_ckpt::Control;
use als_disk::BlockDisk;
use als_log::LocalLog;
use als_past::Past;
use als_pool::Pool;
use std::marker::Model;

/// What the log, the control block and the pages of a store were when it was made, for clauses
/// alone: it takes no bytes.
pub(crate) struct Origin<D: BlockDisk> {
    log: Past<LocalLog<D>>,
    control: Past<Control<D>>,
    pool: Past<Pool<D>>,
}

impl<D: BlockDisk> Model for Origin<D> {
    ghost use Rattle.als_store.specs.Origin.{Origin, origin_of};

    ghost Value = { Origin };

    ghost view = { λ o. origin_of o.log.value o.control.value o.pool.value.pool };
}

// Written out: a derived drop is proved part by part wherever a store is dropped, this one only
// here.
impl<D: BlockDisk> Drop for Origin<D> {
    fn drop(self) {
        let Origin {
            log: _,
            control: _,
            pool: _,
        } = self;
    }
}

impl<D: BlockDisk> Origin<D> {
    /// What the parts are now.
    pub(crate) fn of(log: &LocalLog<D>, control: &Control<D>, pool: &Pool<D>) -> Origin<D>
        ensures { result ≡ origin_of log.now control.now pool.now.pool }
    {
        Origin {
            log: Past::of(log),
            control: Past::of(control),
            pool: Past::of(pool),
        }
    }
}
