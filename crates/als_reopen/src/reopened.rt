ghost use Rattle.std.specs.Prelude.{◌≡◌};

use als_ckpt::Control;
use als_commits::Waiting;
use als_disk::BlockDisk;
use als_log::LocalLog;
use als_pool::Pool;
use als_tables::CommitCount;
use als_validator::Validator;

/// What was read of the devices of a standby.
pub struct Reopened<D: BlockDisk> {
    /// The log, all of it written and synced.
    pub log: LocalLog<D>,
    /// The control state, and nothing written since.
    pub control: Control<D>,
    /// The pages, none of which was read; the changes that a page may lack wait.
    pub pool: Pool<D>,
    /// What a validator keeps of the log.
    pub validator: Validator,
    /// The log's records, counted.
    pub count: CommitCount,
    /// The log's commits, which all wait for the readers.
    pub waiting: Waiting,
}

// Written out: a derived drop is proved wherever what was read is dropped, this one only here.
impl<D: BlockDisk + Drop> Drop for Reopened<D> {
    fn drop(self) {
        let Reopened {
            log,
            control,
            pool,
            validator,
            count: _,
            waiting,
        } = self;
        drop(log);
        drop(control);
        drop(pool);
        drop(validator);
        drop(waiting);
    }
}

impl<D: BlockDisk> Reopened<D> {
    /// The log, the control state, the pages, the validator, the counts and the commits.
    pub fn into_parts(
        self,
    ) -> (
        LocalLog<D>,
        Control<D>,
        Pool<D>,
        Validator,
        CommitCount,
        Waiting,
    )
        ensures { (result.0 ≡ self.log) × (result.1 ≡ self.control) × (result.2 ≡ self.pool)
            × (result.3 ≡ self.validator) × (result.4 ≡ self.count)
            × (result.5 ≡ self.waiting) }
    {
        let Reopened {
            log,
            control,
            pool,
            validator,
            count,
            waiting,
        } = self;
        (log, control, pool, validator, count, waiting)
    }
}
