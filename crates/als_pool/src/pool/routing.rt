// Changes on their way behind those that wait.
ghost use Rattle.std.specs.Prelude.{◌≡◌, ◌<◌, ◌≤◌, ◌+◌, ℕ, List, [], ◌∷◌, ◌++◌, length, Some};
ghost use Rattle.std.specs.Prelude.{IsOk, OnOk, OnErr};
ghost use Rattle.als_record.specs.declared.record.Record.{Record as AnyRecord};
ghost use Rattle.als_record.specs.LogText.{end_of, IsLog};
ghost use Rattle.als_record.specs.Pages.{change_of};
ghost use Rattle.als_pool.specs.Bounds.{EndsBelow};
ghost use Rattle.als_pool.specs.Outcomes.{HasPlace, with_place, without_place, CanRoute};
ghost use Rattle.als_pool.specs.Outcomes.{with_change};
ghost use Rattle.als_pool.specs.Images.{IsPoolOf, QueuesOf, IsFromOn};
ghost use Rattle.als_pool.specs.Restart.{HasRowsFrom, HoldsImagesOf};
ghost use Rattle.als_record.specs.declared.lsn.Lsn.{Lsn as AnyLsn};
ghost use Rattle.als_record.specs.declared.rows.LoggedPage.{LoggedPage as AnyRow};

use super::Pool;
use als_disk::BlockDisk;
use als_record::Change;
use std::alloc::AllocError;

impl<D: BlockDisk> Pool<D> {
    /// Makes room for one more change of a page. An `Err` changes nothing.
    pub fn reserve(&mut self, page: u32) -> Result<(), AllocError>
        requires { page < length self.old.pool.waits }
        ensures same { self.new.pool ≡ self.old.pool }
        ensures ok { OnOk result (self.new.room ≡ with_place self.old.room page) }
        ensures place { OnOk result (HasPlace self.new.room page) }
        ensures err { OnErr result (self.new.room ≡ self.old.room) }
        ensures reserved { HasPlace self.old.room page → IsOk result }
    {
        self.queues.reserve(page)?;
        Ok(())
    }

    /// Adds a change, which the log has at its end, behind those that its page waits for. It takes
    /// no memory.
    pub fn route(&mut self, change: Change)
        requires can { CanRoute self.old.pool change }
        requires place { HasPlace self.old.room change.key.page }
        ensures value { self.new.pool ≡ with_change self.old.pool change }
        ensures room { self.new.room ≡ without_place self.old.room change.key.page }
        // For every log that the pool is of, it is that of the log with a record which makes the
        // change.
        ensures keeps { (log : List AnyRecord) (below : ℕ) (r : AnyRecord)
            → IsPoolOf log below self.old.pool → IsLog self.old.pool.frames.pages (log ++ r ∷ [])
            → r.lsn.0 ≡ end_of log → change_of r ≡ Some change
            → IsPoolOf (log ++ r ∷ []) below self.new.pool }
        // While a log is read at a restart: for every front of it whose changes wait as they
        // should, they do so with a record more.
        ensures reads { (front : List AnyRecord) (r : AnyRecord) → QueuesOf front self.old.pool
            → r.lsn.0 ≡ end_of front → change_of r ≡ Some change
            → IsFromOn self.old.pool change → QueuesOf (front ++ r ∷ []) self.new.pool }
        ensures holds { (log : List AnyRecord) (below : ℕ) → HoldsImagesOf log below self.old.pool
            → HoldsImagesOf log below self.new.pool }
        // Whatever the blocks hold: pages and what waits for them end below the log's end.
        ensures ends { (log : List AnyRecord) (r : AnyRecord)
            → EndsBelow (end_of log) self.old.pool → r.lsn.0 ≡ end_of log
            → change_of r ≡ Some change
            → EndsBelow (end_of (log ++ r ∷ [])) self.new.pool }
        // The rows of unread pages stay those of the checkpoint.
        ensures given { (position : AnyLsn) (rows : List AnyRow)
            → HasRowsFrom position rows self.old.pool → HasRowsFrom position rows self.new.pool }
    {
        self.add(change);
    }

    // The private twins below carry what a call does; what it keeps for every log follows from that
    // at the public call.
    fn add(&mut self, change: Change)
        requires can { CanRoute self.old.pool change }
        requires place { HasPlace self.old.room change.key.page }
        ensures value { self.new.pool ≡ with_change self.old.pool change }
        ensures room { self.new.room ≡ without_place self.old.room change.key.page }
    {
        self.dirty.note_change(change.key.page, change.lsn);
        self.queues.push(change);
    }
}
