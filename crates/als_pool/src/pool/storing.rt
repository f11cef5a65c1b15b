// Pages on their way to the device.
ghost use Rattle.std.specs.Prelude.{◌≡◌, ◌<◌, ◌≤◌, ℕ, List, length, Contains, Some, None, IsTrue};
ghost use Rattle.std.specs.Prelude.{IfSome, IfNone, IfErr, OnOk, OnErr};
ghost use Rattle.als_record.specs.declared.record.Record.{Record as AnyRecord};
ghost use Rattle.als_frames.specs.Frames.{slot_of};
ghost use Rattle.als_frames.specs.Outcomes.{NothingIsDue, RefusesWrite};
ghost use Rattle.als_dirty.specs.Rows.{rec_lsn_of};
ghost use Rattle.als_pool.specs.declared.fault.Fault.TheVariants.{Device as DeviceFailed};
ghost use Rattle.als_pool.specs.Pooled.{SameLsns, Grows};
ghost use Rattle.als_pool.specs.Bounds.{EndsBelow};
ghost use Rattle.als_pool.specs.Outcomes.{IsDueAt, StoresPage, Flushes, RefusesFlush, SyncsPages};
ghost use Rattle.als_pool.specs.Outcomes.{SyncPagesFails};
ghost use Rattle.als_pool.specs.Images.{IsPoolOf, IsRowSound};
ghost use Rattle.als_pool.specs.Restart.{HasRowsFrom};
ghost use Rattle.als_record.specs.declared.lsn.Lsn.{Lsn as AnyLsn};
ghost use Rattle.als_record.specs.declared.rows.LoggedPage.{LoggedPage as AnyRow};

use super::Pool;
use crate::fault::Fault;
use als_disk::BlockDisk;
use als_record::Lsn;

impl<D: BlockDisk> Pool<D> {
    /// Writes a resident page that is not lent to its block, if the log is acknowledged past its
    /// page_LSN.
    ///
    /// `PageLent`: the page is lent. `NothingToDo`: it has no frame, or it is the image last
    /// written. `LogBehind`: its page_LSN is not below the acknowledged LSN. `Device`: the one
    /// write has failed. They come in this order.
    pub fn flush_one(&mut self, page: u32, acknowledged: Lsn) -> Result<(), Fault>
        ensures ok { OnOk result (Flushes self.old.pool self.new.pool page acknowledged) }
        ensures err { IfErr result (λ e. RefusesFlush e self.old.pool self.new.pool page
            acknowledged) }
        // For every log that the pool is of, it stays so, where the log up to the acknowledged LSN
        // survives each crash.
        ensures keeps { (log : List AnyRecord) (below : ℕ) → acknowledged.0 ≤ below
            → IsPoolOf log below self.old.pool → IsPoolOf log below self.new.pool }
        ensures lsns { SameLsns self.old.pool self.new.pool }
        ensures grows { (log : List AnyRecord) (below : ℕ) → acknowledged.0 ≤ below
            → IsPoolOf log below self.old.pool → Grows self.old.pool self.new.pool }
        ensures room { self.new.room ≡ self.old.room }
        ensures ends { (end : ℕ) → EndsBelow end self.old.pool → EndsBelow end self.new.pool }
        // The rows of unread pages stay those of the checkpoint.
        ensures given { (position : AnyLsn) (rows : List AnyRow)
            → HasRowsFrom position rows self.old.pool → HasRowsFrom position rows self.new.pool }
    {
        self.write_due(page, acknowledged)
    }

    fn write_due(&mut self, page: u32, acknowledged: Lsn) -> Result<(), Fault>
        ensures ok { OnOk result (Flushes self.old.pool self.new.pool page acknowledged) }
        ensures err { IfErr result (λ e. RefusesFlush e self.old.pool self.new.pool page
            acknowledged) }
        ensures room { self.new.room ≡ self.old.room }
    {
        if self.frames.lent_of(page).is_some() {
            return Err(Fault::PageLent);
        }
        let Some(lsn) = self.due(page) else {
            return Err(Fault::NothingToDo);
        };
        if acknowledged.0 <= lsn.0 {
            return Err(Fault::LogBehind);
        }
        self.store_page(page, lsn)?;
        Ok(())
    }

    // The page_LSN of a resident page that is not written as it is now.
    fn due(&self, page: u32) -> Option<Lsn>
        ensures some { IfSome result (λ lsn. IsDueAt self.now.pool page lsn) }
        ensures none { IfNone result (NothingIsDue self.now.pool.frames page) }
    {
        if page >= self.frames.pages() {
            return None;
        }
        let lsns = self.frames.lsns(page)?;
        if lsns.now.0 == lsns.written.0 {
            return None;
        }
        Some(lsns.now)
    }

    // Writes a resident page to its block.
    fn store_page(&mut self, page: u32, lsn: Lsn) -> Result<(), als_frames::Fault>
        requires { IsDueAt self.old.pool page lsn }
        ensures ok { OnOk result (StoresPage self.old.pool self.new.pool page lsn) }
        ensures err { IfErr result (λ e. RefusesWrite e self.old.pool.frames self.new.pool.frames
            page
            × (self.new.pool ≡ record self.old.pool { frames = self.new.pool.frames })) }
        ensures room { self.new.room ≡ self.old.room }
    {
        self.frames.write(page)?;
        let next = self.queues.first(page);
        self.dirty.note_write(page, next);
        Ok(())
    }

    /// Syncs the device: of each page the image last written is then the one last synced, and the
    /// rows move.
    ///
    /// `Device`: the one sync has failed.
    pub fn sync_pages(&mut self) -> Result<(), Fault>
        ensures ok { OnOk result (SyncsPages self.old.pool self.new.pool) }
        ensures fault { IfErr result (λ e. e ≡ DeviceFailed) }
        ensures err { OnErr result (SyncPagesFails self.old.pool self.new.pool) }
        // For every log that the pool is of, it stays so, unless a write has failed.
        ensures keeps { (log : List AnyRecord) (below : ℕ) → IsTrue self.old.pool.frames.sure
            → IsPoolOf log below self.old.pool
            → IsPoolOf log below self.new.pool }
        ensures lsns { (log : List AnyRecord) (below : ℕ) → IsTrue self.old.pool.frames.sure
            → IsPoolOf log below self.old.pool
            → SameLsns self.old.pool self.new.pool }
        ensures grows { (log : List AnyRecord) (below : ℕ) → IsTrue self.old.pool.frames.sure
            → IsPoolOf log below self.old.pool
            → Grows self.old.pool self.new.pool }
        ensures ends { (end : ℕ) → EndsBelow end self.old.pool → EndsBelow end self.new.pool }
        // The rows of unread pages stay those of the checkpoint.
        ensures given { (position : AnyLsn) (rows : List AnyRow)
            → HasRowsFrom position rows self.old.pool → HasRowsFrom position rows self.new.pool }
    {
        self.sync_all()
    }

    fn sync_all(&mut self) -> Result<(), Fault>
        ensures ok { OnOk result (SyncsPages self.old.pool self.new.pool) }
        ensures fault { IfErr result (λ e. e ≡ DeviceFailed) }
        ensures err { OnErr result (SyncPagesFails self.old.pool self.new.pool) }
    {
        self.frames.sync()?;
        self.dirty.note_sync();
        Ok(())
    }

    /// The device, with what stands in the block of each page.
    pub fn into_disk(self) -> D
        ensures slots { (page : ℕ) → page < length self.pool.waits
            → D.slot result page ≡ slot_of self.pool.frames page }
        ensures count { D.block_count result ≡ self.pool.frames.blocks }
        ensures room { length self.pool.waits ≤ D.block_count result }
        ensures failures { D.failures result ≡ self.pool.frames.failures }
        ensures attempts { D.attempts result ≡ self.pool.frames.attempts }
        // For every log that the pool is of: whatever a crash leaves in a page's block, its row is
        // sound for it.
        ensures images { (log : List AnyRecord) (below : ℕ) → IsPoolOf log below self.pool
            → (page : ℕ) (content : List ℕ) → page < length self.pool.waits
            → Contains (D.slot result page).candidates content
            → IsRowSound log page below (rec_lsn_of self.pool.dirty page) content }
    {
        let Pool {
            frames,
            dirty: _,
            queues: _,
            unread: _,
            numbers: _,
            rooms: _,
            alloc: _,
        } = self;
        frames.into_disk()
    }
}
