// The changes of a log's records, on their way to where they wait for their pages.
ghost use Rattle.std.specs.Prelude.{◌≡◌, ℕ, ◌≤◌, ◌+◌, true, false, List, [], ◌∷◌, ◌++◌, IsSome};
ghost use Rattle.std.specs.Prelude.{IfSome, OnOk, Some};
ghost use Rattle.als_record.specs.declared.change.Change.{Change as AnyChange};
ghost use Rattle.als_record.specs.declared.lsn.Lsn.{Lsn as AnyLsn};
ghost use Rattle.als_record.specs.declared.record.Record.{Record as AnyRecord};
ghost use Rattle.als_record.specs.declared.rows.LoggedPage.{LoggedPage as AnyRow};
ghost use Rattle.als_record.specs.LogText.{end_of};
ghost use Rattle.als_record.specs.Pages.{change_of};
ghost use Rattle.als_record.specs.Shown.{shown};
ghost use Rattle.als_reopen.specs.Taking.{page_changed};
ghost use Rattle.als_pool.specs.Queues.{total_waiting};
ghost use Rattle.als_pool.specs.Pooled.{unread_of};
ghost use Rattle.als_pool.specs.Outcomes.{CanRoute};
ghost use Rattle.als_pool.specs.Images.{QueuesOf, IsFromOn, IsBelow};
ghost use Rattle.als_pool.specs.Restart.{HasRowsFrom};
ghost use Rattle.als_reopen.specs.Reading.{KeepsImages};

use als_disk::BlockDisk;
use als_pool::{Pool, other_records_wait_nowhere};
use als_record::{BodyView, Change, RecordView};
use std::alloc::AllocError;

/// The page that a record changes, if it changes one.
#[inline(always)]
fn changed_page(logged: &RecordView<'_>) -> Option<u32>
    ensures { result ≡ page_changed (change_of (shown logged.now)) }
{
    match &logged.body {
        BodyView::Update { key, .. } | BodyView::Compensation { key, .. } => Some(key.page),
        _ => None,
    }
}

/// Whether the change of a page that was not read stands at or above the LSN from which on its
/// page's changes wait.
#[inline(always)]
fn waits<D: BlockDisk>(pool: &Pool<D>, page: u32, logged: &RecordView<'_>) -> bool
    requires { IsSome (unread_of pool.now.pool.unread page) }
    ensures from_on { result ≡ true → (c : AnyChange) → change_of (shown logged.now) ≡ Some c
        → c.key.page ≡ page → IsFromOn pool.now.pool c }
    ensures below { result ≡ false → (c : AnyChange) → change_of (shown logged.now) ≡ Some c
        → c.key.page ≡ page → IsBelow pool.now.pool c }
{
    match pool.waits_from(page) {
        Some(from) => from.0 <= logged.lsn.0,
        None => unreachable!(),
    }
}

/// Puts a change behind those that its page waits for. An `Err`, an allocation failed, changes
/// nothing.
fn route<D: BlockDisk>(pool: &mut Pool<D>, change: Change) -> Result<(), AllocError>
    requires can { CanRoute pool.old.pool change }
    requires from_on { IsFromOn pool.old.pool change }
    ensures reads { OnOk result ((front : List AnyRecord) (r : AnyRecord)
        → QueuesOf front pool.old.pool → r.lsn.0 ≡ end_of front → change_of r ≡ Some change
        → QueuesOf (front ++ r ∷ []) pool.new.pool) }
    ensures given { (position : AnyLsn) (rows : List AnyRow)
        → HasRowsFrom position rows pool.old.pool → HasRowsFrom position rows pool.new.pool }
    ensures images { KeepsImages pool.old.pool pool.new.pool }
    ensures few { total_waiting pool.new.pool.waits ≤ total_waiting pool.old.pool.waits + 1 }
    ensures frames { pool.new.pool.frames ≡ pool.old.pool.frames }
    ensures numbers { pool.new.pool.next ≡ pool.old.pool.next }
{
    pool.reserve(change.key.page)?;
    pool.route(change);
    Ok(())
}

/// Takes in a record of the log: its change, if it makes one, waits for its page, unless it stands
/// below where the page's changes wait.
///
/// `Memory`: an allocation failed, and nothing has changed.
#[inline(always)]
pub(crate) fn take_change<D: BlockDisk>(
    pool: &mut Pool<D>,
    logged: &RecordView<'_>,
) -> Result<(), AllocError>
    requires unread { IfSome (change_of (shown logged.now))
        (λ c. IsSome (unread_of pool.old.pool.unread c.key.page)) }
    requires can { IfSome (change_of (shown logged.now)) (λ c. IsFromOn pool.old.pool c
        → CanRoute pool.old.pool c) }
    // For every front of the log whose changes wait as they should, they do so with the record.
    ensures reads { OnOk result ((front : List AnyRecord) → QueuesOf front pool.old.pool
        → logged.now.lsn.0 ≡ end_of front
        → QueuesOf (front ++ shown logged.now ∷ []) pool.new.pool) }
    ensures given { (position : AnyLsn) (rows : List AnyRow)
        → HasRowsFrom position rows pool.old.pool → HasRowsFrom position rows pool.new.pool }
    ensures images { KeepsImages pool.old.pool pool.new.pool }
    ensures few { total_waiting pool.new.pool.waits ≤ total_waiting pool.old.pool.waits + 1 }
    ensures frames { pool.new.pool.frames ≡ pool.old.pool.frames }
    ensures numbers { pool.new.pool.next ≡ pool.old.pool.next }
{
    other_records_wait_nowhere();
    let Some(page) = changed_page(logged) else {
        return Ok(());
    };
    if !waits(pool, page, logged) {
        return Ok(());
    }
    match logged.change() {
        Some(change) => route(pool, change),
        // It changes a page.
        None => Ok(()),
    }
}
