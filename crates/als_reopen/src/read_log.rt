ghost use Rattle.std.specs.Prelude.{◌≡◌};

use crate::reopened::Reopened;
use als_ckpt::Control;
use als_commits::Waiting;
use als_disk::BlockDisk;
use als_log::LocalLog;
use als_pool::Pool;
use als_tables::CommitCount;
use als_validator::Validator;

/// A log that was read whole, with what a restart takes of it.
pub(crate) struct ReadLog<D: BlockDisk> {
    pub(crate) log: LocalLog<D>,
    pub(crate) pool: Pool<D>,
    pub(crate) validator: Validator,
    pub(crate) count: CommitCount,
    pub(crate) waiting: Waiting,
}

// Written out: a derived drop is proved wherever a log that was read is dropped, this one only
// here.
impl<D: BlockDisk + Drop> Drop for ReadLog<D> {
    fn drop(self) {
        let ReadLog {
            log,
            pool,
            validator,
            count: _,
            waiting,
        } = self;
        drop(log);
        drop(pool);
        drop(validator);
        drop(waiting);
    }
}

impl<D: BlockDisk> ReadLog<D> {
    /// All that was read, with the control block.
    pub(crate) fn with_control(self, control: Control<D>) -> Reopened<D>
        ensures { (result.log ≡ self.log) × (result.control ≡ control) × (result.pool ≡ self.pool)
            × (result.validator ≡ self.validator) × (result.count ≡ self.count)
            × (result.waiting ≡ self.waiting) }
    {
        let ReadLog {
            log,
            pool,
            validator,
            count,
            waiting,
        } = self;
        Reopened {
            log,
            control,
            pool,
            validator,
            count,
            waiting,
        }
    }
}
