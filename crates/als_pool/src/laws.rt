ghost use Rattle.std.specs.Prelude.{◌≡◌, ◌↔◌, ℕ, ◌<◌, ◌≤◌, ◌+◌, ◌^◌, true, false, List, [], ◌∷◌};
ghost use Rattle.std.specs.Prelude.{◌++◌, length, Contains, Some, None};
ghost use Rattle.std.specs.List.{AllByRecursion};
ghost use Rattle.als_record.specs.declared.change.Change.{Change as AnyChange};
ghost use Rattle.als_record.specs.declared.record.Record.{Record as AnyRecord};
ghost use Rattle.als_record.specs.LogText.{end_of, IsLog};
ghost use Rattle.als_record.specs.Pages.{change_of};
ghost use Rattle.als_disk.specs.Slot.{Slot, KeepsCandidate};
ghost use Rattle.als_frames.specs.Frames.{slot_of};
ghost use Rattle.als_frames.specs.Outcomes.{IsFull, NothingIsDue};
ghost use Rattle.als_frames.specs.Images.{synced_content, synced_lsn, AreFramesOf};
ghost use Rattle.als_dirty.specs.Rows.{rec_lsn_of, rows_of};
ghost use Rattle.als_pool.specs.Queues.{total_waiting, pending_of};
ghost use Rattle.als_frames.specs.Leases.{lent_of};
ghost use Rattle.als_pool.specs.Pooled.{Pooled, IsPooled, leases_of, unread_of, view_of};
ghost use Rattle.als_pool.specs.Refusals.{is_lent, are_spent, has_waiting, is_full, is_due};
ghost use Rattle.als_pool.specs.Bounds.{EndsBelow};
ghost use Rattle.als_pool.specs.Outcomes.{CanRoute};
ghost use Rattle.als_pool.specs.Queues.{pending_of};
ghost use Rattle.als_pool.specs.Images.{IsPoolOf, IsRowSound, IsRowExact, QueuesOf, IsBelow};
ghost use Rattle.als_pool.specs.Images.{IsFromOn, AllLackFrom};
ghost use Rattle.als_pool.specs.Restart.{row_in, start_of, HasRowsFrom, IsRowOfRestart};
ghost use Rattle.als_pool.specs.Restart.{HoldsImagesFrom, HoldsImagesOf, TakesInAll, IsRowBelow};
ghost use Rattle.als_pool.specs.Restart.{CoversPages};
ghost use Rattle.als_record.specs.declared.lsn.Lsn.{Lsn as AnyLsn};
ghost use Rattle.als_record.specs.declared.rows.LoggedPage.{LoggedPage as AnyRow};

/// A law, the meaning of RecLSN: whatever a crash leaves in the block of a page is an image of it
/// from below the offset up to which the log survives, which lacks no record of the log below the
/// page's RecLSN, and none where the page has no row.
pub fn each_row_is_sound()
    ensures { (log : List AnyRecord) (below : ℕ) (pool : Pooled) (page : ℕ) (content : List ℕ)
        → IsPoolOf log below pool → page < length pool.waits
        → Contains (slot_of pool.frames page).candidates content
        → IsRowSound log page below (rec_lsn_of pool.dirty page) content }
{}

/// A law: a page that was read has as its row exactly the first record of the log above the image
/// last synced, which is the oldest content that a crash may leave in its block; where there is
/// none it has no row.
pub fn each_row_is_exact()
    ensures { (log : List AnyRecord) (below : ℕ) (pool : Pooled) (page : ℕ)
        → IsPoolOf log below pool → page < length pool.waits
        → unread_of pool.unread page ≡ None
        → IsRowExact log page (rec_lsn_of pool.dirty page)
        (synced_content (slot_of pool.frames page)) }
{}

/// A law: the tests by which a lease and a write of a page are refused are exact. The page is lent;
/// nothing waits for it; the numbers are spent; it has no frame, and none can be had for it; or
/// there is nothing to write.
pub fn refusals_compute()
    ensures lent { (pool : Pooled) (page : ℕ)
        → (is_lent pool page ≡ false) ↔ (lent_of pool.frames page ≡ None) }
    ensures spent { (pool : Pooled) → (are_spent pool ≡ true) ↔ (pool.next ≡ None) }
    ensures waiting { (pool : Pooled) (page : ℕ)
        → (has_waiting pool page ≡ false) ↔ (pending_of pool.waits page ≡ []) }
    ensures full { (pool : Pooled) (page : ℕ)
        → (is_full pool page ≡ true) ↔ IsFull pool.frames page }
    ensures due { (pool : Pooled) (page : ℕ)
        → (is_due (view_of pool page) ≡ false) ↔ NothingIsDue pool.frames page }
{}

/// A law: the changes of a lease wait until it ends, so where nothing waits, no page is lent.
pub fn leases_wait()
    ensures none { (pool : Pooled) (page : ℕ) → IsPooled pool → total_waiting pool.waits ≡ 0
        → is_lent pool page ≡ false }
    ensures count { (pool : Pooled) → IsPooled pool → total_waiting pool.waits ≡ 0
        → leases_of pool ≡ 0 }
{}

/// A law: the change of a record at the log's end can go behind those that its page waits for.
pub fn change_can_be_routed()
    ensures { (log : List AnyRecord) (below : ℕ) (pool : Pooled) (r : AnyRecord)
        (change : AnyChange) → IsPoolOf log below pool
        → IsLog pool.frames.pages (log ++ r ∷ []) → r.lsn.0 ≡ end_of log → change_of r ≡ Some change
        → total_waiting pool.waits + 1 < 2 ^ 64
        → CanRoute pool change }
{}

/// A law: so can it where nothing is known of the images, but that the pages and what waits for
/// them end below the log's end.
pub fn change_can_follow()
    ensures { (log : List AnyRecord) (pool : Pooled) (r : AnyRecord) (change : AnyChange)
        → EndsBelow (end_of log) pool
        → IsLog pool.frames.pages (log ++ r ∷ []) → r.lsn.0 ≡ end_of log → change_of r ≡ Some change
        → total_waiting pool.waits + 1 < 2 ^ 64
        → CanRoute pool change }
{}

/// A law: the pages and what waits for them end below an offset, where they do so below a lower
/// one; and below the log's end where the pool is that of the log, and where it was opened and the
/// log read. A record that waits nowhere changes nothing of it.
pub fn pool_ends_below()
    ensures more { (end more : ℕ) (pool : Pooled) → end ≤ more → EndsBelow end pool
        → EndsBelow more pool }
    ensures other { (log : List AnyRecord) (r : AnyRecord) (pool : Pooled)
        → EndsBelow (end_of log) pool → EndsBelow (end_of (log ++ r ∷ [])) pool }
    ensures of { (log : List AnyRecord) (below : ℕ) (pool : Pooled) → IsPoolOf log below pool
        → EndsBelow (end_of log) pool }
    ensures reads { (front : List AnyRecord) (position : AnyLsn) (rows : List AnyRow)
        (pool : Pooled) → IsLog pool.frames.pages front
        → HasRowsFrom position rows pool → QueuesOf front pool → EndsBelow (end_of front) pool }
{}

/// A law: a record that changes no page leaves the pool that of the log.
pub fn other_records_pass()
    ensures { (log : List AnyRecord) (below : ℕ) (pool : Pooled) (r : AnyRecord)
        → IsLog pool.frames.pages (log ++ r ∷ []) → r.lsn.0 ≡ end_of log
        → change_of r ≡ None → IsPoolOf log below pool → IsPoolOf (log ++ r ∷ []) below pool }
{}

/// A law: the pool stays that of the log where more of the log survives each crash.
pub fn mark_changes_nothing()
    ensures { (log : List AnyRecord) (below more : ℕ) (pool : Pooled) → below ≤ more
        → IsPoolOf log below pool → IsPoolOf log more pool }
{}

/// A law, for a restart: a record that changes no page, and one whose change is below the LSN from
/// which on its page's changes wait, wait nowhere.
pub fn other_records_wait_nowhere()
    ensures none { (front : List AnyRecord) (r : AnyRecord) (pool : Pooled) → r.lsn.0 ≡ end_of front
        → change_of r ≡ None
        → QueuesOf front pool → QueuesOf (front ++ r ∷ []) pool }
    ensures before { (front : List AnyRecord) (r : AnyRecord) (change : AnyChange) (pool : Pooled)
        → r.lsn.0 ≡ end_of front → change_of r ≡ Some change
        → IsBelow pool change → QueuesOf front pool → QueuesOf (front ++ r ∷ []) pool }
{}

/// A law, for a restart: where the whole log was read, and each block has one image that lacks no
/// change below the LSN from which on its page's changes wait, the pool is that of the log. The
/// rows come from a checkpoint whose position the log has reached.
pub fn queues_join_images()
    ensures joined { (log : List AnyRecord) (below : ℕ) (position : AnyLsn) (rows : List AnyRow)
        (pool : Pooled) → position.0 ≤ end_of log
        → AllByRecursion (IsRowBelow position) rows → HasRowsFrom position rows pool
        → AreFramesOf log (synced_lsn pool.frames) below pool.frames
        → QueuesOf log pool → AllLackFrom log pool → IsPoolOf log below pool }
    ensures opened { (log : List AnyRecord) (below : ℕ) (pool : Pooled)
        → HoldsImagesOf log below pool → QueuesOf log pool → IsPoolOf log below pool }
{}

/// A law, for a checkpoint: the rows of the dirty pages as they are make a checkpoint at the log's
/// end. Each is below that; and no image last synced lacks a record below where a restart with them
/// begins. Where no checkpoint is published none lacks one below the first record.
pub fn rows_make_a_checkpoint()
    ensures listed { (log : List AnyRecord) (below : ℕ) (pool : Pooled) → IsPoolOf log below pool
        → AllByRecursion (IsRowBelow (record { 0 = end_of log })) (rows_of pool.dirty) }
    ensures covers { (log : List AnyRecord) (below : ℕ) (pool : Pooled) → IsPoolOf log below pool
        → CoversPages log (record { 0 = end_of log }) (rows_of pool.dirty) pool }
    ensures none { (log : List AnyRecord) (below : ℕ) (position : AnyLsn) (pool : Pooled)
        → IsPoolOf log below pool → position.0 ≤ 16
        → CoversPages log position [] pool }
{}

/// A law, for a stop: whatever it leaves in the blocks of a pool of a log, they hold images for a
/// restart with a checkpoint that covers the pages. So it is for each front of the log that ends at
/// or above what survives, and has reached the checkpoint's position.
pub fn stopped_pages_hold_images()
    ensures { (log front rest : List AnyRecord) (below more : ℕ) (position : AnyLsn)
        (rows : List AnyRow) (pool : Pooled) (left : ℕ → Slot)
        → IsPoolOf log below pool → log ≡ front ++ rest → below ≤ more → more ≤ end_of front
        → position.0 ≤ end_of front → AllByRecursion (IsRowBelow position) rows
        → CoversPages log position rows pool
        → ((page : ℕ) → page < length pool.waits
        → KeepsCandidate (slot_of pool.frames page) (left page))
        → HoldsImagesFrom front more pool.frames.pages position rows left }
{}

/// A law, for a restart: while the log is read, the checkpoint that a pool was opened with covers
/// its pages.
pub fn opened_pages_are_covered()
    ensures { (log : List AnyRecord) (below : ℕ) (position : AnyLsn) (rows : List AnyRow)
        (pool : Pooled) → HoldsImagesOf log below pool
        → HasRowsFrom position rows pool → CoversPages log position rows pool }
{}

/// A law, for a restart: the change of the next record of the log can go behind those that its page
/// waits for, if it does not stand below the LSN from which on they wait.
pub fn change_can_be_read()
    ensures { (front : List AnyRecord) (r : AnyRecord) (change : AnyChange) (position : AnyLsn)
        (rows : List AnyRow) (pool : Pooled)
        → HasRowsFrom position rows pool → QueuesOf front pool
        → IsLog pool.frames.pages (front ++ r ∷ []) → r.lsn.0 ≡ end_of front
        → change_of r ≡ Some change
        → IsFromOn pool change → total_waiting pool.waits + 1 < 2 ^ 64 → CanRoute pool change }
{}

/// A law, the whole of a restart: where the records of a log were taken in one after another, each
/// change by `route` if it does not stand below the LSN from which on its page's changes wait, the
/// pool is that of the log.
pub fn a_log_is_taken_in()
    ensures { (log : List AnyRecord) (below : ℕ) (old new : Pooled) → HoldsImagesOf log below old
        → QueuesOf [] old → TakesInAll old log new
        → IsPoolOf log below new }
{}

/// A law: until a page was read after a restart, its row is the one in the checkpoint that it was
/// opened with, or else the first record of the log on the page from the checkpoint's position on,
/// none where there is none; and what waits are the page's changes from its row on.
pub fn unread_rows_are_the_checkpoints()
    ensures start { (position : AnyLsn) (rows : List AnyRow) (pool : Pooled) (page : ℕ)
        (from : AnyLsn) → HasRowsFrom position rows pool
        → page < length pool.waits → unread_of pool.unread page ≡ Some from
        → from ≡ start_of position rows page }
    ensures row { (log : List AnyRecord) (below : ℕ) (position : AnyLsn) (rows : List AnyRow)
        (pool : Pooled) (page : ℕ) (from : AnyLsn)
        → IsPoolOf log below pool → HasRowsFrom position rows pool → page < length pool.waits
        → unread_of pool.unread page ≡ Some from
        → IsRowOfRestart log page from (row_in rows page) (rec_lsn_of pool.dirty page)
        (pending_of pool.waits page) }
{}
