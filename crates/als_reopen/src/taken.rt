ghost use Rattle.std.specs.Prelude.{◌≡◌};

use crate::committing::take_commit;
use crate::taking_in::take_change;
use als_commits::Waiting;
use als_disk::BlockDisk;
use als_pool::Pool;
use als_record::RecordView;
use als_scan::TakeRecord;
use als_tables::CommitCount;
use als_validator::Validator;
use std::alloc::{AllocError, Global};

/// What a restart takes of the records of a log: they are counted, their changes wait for the pages,
/// and their commits for the readers.
pub(crate) struct Taken<D: BlockDisk> {
    pub(crate) pool: Pool<D>,
    pub(crate) count: CommitCount,
    /// The commits of the records, which wait for the readers.
    pub(crate) waiting: Waiting,
}

// Written out: a derived drop is proved wherever what was taken is dropped, this one only here.
impl<D: BlockDisk + Drop> Drop for Taken<D> {
    fn drop(self) {
        let Taken {
            pool,
            count: _,
            waiting,
        } = self;
        drop(pool);
        drop(waiting);
    }
}

impl<D: BlockDisk> Taken<D> {
    /// The pages, the count and the commits.
    pub(crate) fn into_parts(self) -> (Pool<D>, CommitCount, Waiting)
        ensures { (result.0 ≡ self.pool) × (result.1 ≡ self.count) × (result.2 ≡ self.waiting) }
    {
        let Taken {
            pool,
            count,
            waiting,
        } = self;
        (pool, count, waiting)
    }
}

impl<D: BlockDisk> TakeRecord for Taken<D> {
    ghost use Rattle.als_reopen.specs.Taking.{CanTake, Takes, KeepsPages};

    ghost can = { λ s r. CanTake s.pool.pool s.count r };

    ghost took = { λ s log r t. Takes s.pool.pool s.count s.waiting.queued log r t.pool.pool t.count
        t.waiting.queued };

    ghost keeps = { λ s t. KeepsPages s.pool.pool t.pool.pool };

    #[inline(always)]
    fn take(
        &mut self,
        alloc: Global,
        validator: &Validator,
        logged: &RecordView<'_>,
    ) -> Result<(), AllocError> {
        take_commit(alloc, &mut self.waiting, validator, logged)?;
        take_change(&mut self.pool, logged)?;
        self.count.note(logged);
        Ok(())
    }
}
