ghost use Rattle.std.specs.Prelude.{◌≡◌, ◌==◌, ◌&&◌, ℕ, not, true, false, List, MatchOption};
ghost use Rattle.std.specs.Prelude.{option_copied, is_none, nat_le};
ghost use Rattle.std.specs.List.{list_any};
ghost use Rattle.als_record.specs.declared.record.Record.{Record};
ghost use Rattle.als_record.specs.declared.trans_id.TransId.{TransId};
ghost use Rattle.als_record.specs.Spelling.{IsKey};
ghost use Rattle.als_record.specs.Shown.{shown, shown_body, shown_image};
ghost use Rattle.als_record.specs.Transactions.{is_transactional, is_end, is_open};
ghost use Rattle.als_record.specs.Images.{same_image, is_update_at, image_before};
ghost use Rattle.als_record.specs.Table.{is_prepared};
ghost use Rattle.als_record.specs.Validity.{fits_checkpoints};
ghost use Rattle.als_analysis.specs.Noted.{IsTableOf};
ghost use Rattle.als_validator.specs.Causing.{TellsBadPrev, TellsOld, TellsWrongState};
ghost use Rattle.als_validator.specs.Causing.{TellsWrongUndoNext};
ghost use Rattle.als_validator.specs.Causing.{TellsWrongCompensation, TellsHolder, TellsHolderIn};
ghost use Rattle.als_validator.specs.Causing.{TellsStale};
ghost use Rattle.als_validator.specs.Causing.{TellsOneTooMany, TellsBadCheckpoint};
ghost use Rattle.als_validator.specs.Keys.{AreKeysOf, IsKeyOf};
ghost use Rattle.als_validator.specs.Tests.{state_in, last_in, goes_on, barred, skips, misses};

use crate::key_state::KeyState;
use crate::keys::place;
use crate::past::Past;
use als_analysis::TransTable;
use als_record::{
    BodyView, ImageView, KeptUpdate, Key, Lsn, RecordView, TRANSACTION_LIMIT, TransId,
    TransactionRow, TransactionState,
};

/// Whether a record belongs to a transaction: all but those of checkpoints.
pub(crate) fn is_transaction_record(body: &BodyView<'_>) -> bool
    ensures { result ≡ is_transactional (shown_body body.now) }
{
    !matches!(
        body,
        BodyView::BeginCheckpoint | BodyView::EndCheckpoint { .. }
    )
}

/// Whether a record ends its transaction.
pub(crate) fn is_end_record(body: &BodyView<'_>) -> bool
    ensures { result ≡ is_end (shown_body body.now) }
{
    matches!(body, BodyView::End)
}

/// LastLSN of a row, 0 without one.
fn last_of(row: Option<TransactionRow>) -> Lsn
    ensures { result.0 ≡ last_in row }
{
    match row {
        Some(row) => row.last,
        None => Lsn(0),
    }
}

/// What a transaction is doing.
fn state_of(row: Option<TransactionRow>) -> TransactionState
    ensures { result ≡ state_in row }
{
    match row {
        Some(row) => row.state,
        None => TransactionState::Active,
    }
}

/// Whether a transaction in this state may not write a record.
fn is_barred(state: TransactionState, left: bool, body: &BodyView<'_>) -> bool
    ensures { result ≡ barred state left (shown_body body.now) }
{
    match (state, body) {
        (TransactionState::Committed, BodyView::End) => false,
        (TransactionState::Committed, _) => true,
        (
            TransactionState::RollingBack,
            BodyView::Update { .. } | BodyView::Commit | BodyView::Rollback | BodyView::Prepare,
        ) => { true }
        (TransactionState::Prepared, BodyView::Commit | BodyView::Rollback) => false,
        (TransactionState::Prepared, _) => true,
        (_, BodyView::End) => left,
        _ => false,
    }
}

/// Whether a transaction in this state waits for its decision.
fn does_wait(state: TransactionState) -> bool
    ensures { result ≡ is_prepared state }
{
    matches!(state, TransactionState::Prepared)
}

/// Whether this is an update of the key with this before image.
fn is_undone_by(update: &KeptUpdate, key: Key, after: &ImageView<'_>) -> bool
    ensures { result ≡ (is_update_at key update.now.body
        && same_image (shown_image after.now) (image_before update.now.body)) }
{
    match &update.view().body {
        BodyView::Update {
            key: written,
            before,
            ..
        } => { written.page == key.page && written.slot == key.slot && after.is_same(before) }
        _ => false,
    }
}

/// Whether a compensation does not go on where the newest surviving update says.
fn does_skip(newest: Option<&KeptUpdate>, body: &BodyView<'_>) -> bool
    ensures { result ≡ skips (option_copied newest.entry) (shown_body body.now) }
{
    match (newest, body) {
        (Some(update), BodyView::Compensation { undo_next, .. }) => undo_next.0 != update.prev().0,
        _ => false,
    }
}

/// Whether a compensation does not undo the newest surviving update.
fn does_miss(newest: Option<&KeptUpdate>, body: &BodyView<'_>) -> bool
    ensures { result ≡ misses (option_copied newest.entry) (shown_body body.now) }
{
    match (newest, body) {
        (None, BodyView::Compensation { .. }) => true,
        (Some(update), BodyView::Compensation { key, after, .. }) => !is_undone_by(
            update, *key, after,
        ),
        _ => false,
    }
}

/// Whether PrevLSN is another than the LastLSN of this row.
fn is_off_chain(row: Option<TransactionRow>, logged: &RecordView<'_>) -> bool
    ensures { result ≡ (is_transactional (shown_body logged.now.body)
        && not (logged.now.prev.0 == last_in row)) }
{
    is_transaction_record(&logged.body) && logged.prev.0 != last_of(row).0
}

/// Whether a transaction without a row does not rise above the greatest TransID.
fn is_below(row: Option<TransactionRow>, greatest: TransId, logged: &RecordView<'_>) -> bool
    ensures { result ≡ (is_transactional (shown_body logged.now.body) && is_none row
        && nat_le logged.now.trans.0 greatest.0) }
{
    is_transaction_record(&logged.body) && row.is_none() && logged.trans.0 <= greatest.0
}

/// Whether a record makes one row more than the limit.
fn does_overflow(row: Option<TransactionRow>, count: usize, logged: &RecordView<'_>) -> bool
    ensures { result ≡ (is_transactional (shown_body logged.now.body)
        && not (is_end (shown_body logged.now.body)) && is_none row && nat_le 256 count) }
{
    is_transaction_record(&logged.body)
        && !is_end_record(&logged.body)
        && row.is_none()
        && count >= TRANSACTION_LIMIT
}

/// Whether a checkpoint's record fits the one that is open.
fn does_fit(begun: Lsn, logged: &RecordView<'_>) -> bool
    ensures { result ≡ fits_checkpoints begun.0 (shown logged.now) (shown_body logged.now.body) }
{
    match &logged.body {
        BodyView::BeginCheckpoint => logged.trans.0 == 0 && logged.prev.0 == 0,
        BodyView::EndCheckpoint { .. } => {
            logged.trans.0 == 0 && logged.prev.0 == begun.0 && begun.0 != 0
        }
        _ => true,
    }
}

/// Whether a transaction that is unended is open.
fn does_go_on(state: TransactionState) -> bool
    ensures { result ≡ goes_on state }
{
    match state {
        TransactionState::Committed => false,
        TransactionState::Active | TransactionState::RollingBack | TransactionState::Prepared => {
            true
        }
    }
}

/// Whether a transaction is among these.
fn is_listed(ids: &[TransId], trans: TransId) -> bool
    ensures { result ≡ list_any (λ (id : TransId). id.0 == trans.0) ids.now }
{
    ids.iter().any(|id| id.0 == trans.0)
}

/// 8: PrevLSN does not name the record before it of the same transaction.
pub(crate) fn is_bad_prev(past: &Past, logged: &RecordView<'_>) -> bool
    ensures { TellsBadPrev past.now (shown logged.now) result }
{
    is_off_chain(past.row, logged)
}

/// 9: a transaction that has ended, or a new one that does not rise above the greatest TransID.
pub(crate) fn is_old(past: &Past, greatest: TransId, logged: &RecordView<'_>) -> bool
    ensures { TellsOld past.now greatest (shown logged.now) result }
{
    is_below(past.row, greatest, logged)
}

/// 10: what the transaction may no longer write. A checkpoint's record may not name one that has
/// committed or is in doubt.
pub(crate) fn is_wrong_state(past: &Past, committed: &[TransId], logged: &RecordView<'_>) -> bool
    ensures { TellsWrongState past.now committed.now (shown logged.now) result }
{
    let state = state_of(past.row);
    if is_transaction_record(&logged.body) {
        return is_barred(state, past.newest.is_some(), &logged.body);
    }
    let waits = does_wait(state);
    waits || is_listed(committed, logged.trans)
}

/// 11: a compensation that does not pass over exactly the update that is to be undone.
pub(crate) fn is_wrong_undo_next(past: &Past, logged: &RecordView<'_>) -> bool
    ensures { TellsWrongUndoNext past.now (shown logged.now) result }
{
    does_skip(past.newest, &logged.body)
}

/// 12: a compensation of anything but the update that is to be undone.
pub(crate) fn is_wrong_compensation(past: &Past, logged: &RecordView<'_>) -> bool
    ensures { TellsWrongCompensation past.now (shown logged.now) result }
{
    does_miss(past.newest, &logged.body)
}

/// What is kept of a key.
pub(crate) fn kept_of(keys: &[KeyState], key: Key) -> Option<&KeyState>
    ensures { (pages : ℕ) (log : List Record) → AreKeysOf keys.now pages log → IsKey pages key
        → MatchOption result (true ≡ false) (λ kept. IsKeyOf kept.now log key) }
{
    let at = place(key);
    if at < keys.len() {
        return Some(&keys[at]);
    }
    None
}

/// Whether a transaction is unended and has not committed.
pub(crate) fn is_still_open(table: &TransTable, trans: TransId) -> bool
    ensures { (log : List Record) → IsTableOf table.now log → result ≡ is_open log trans.0 }
{
    match table.open_of(trans) {
        Some(kept) => does_go_on(kept.row().state),
        None => false,
    }
}

/// 13: the transaction that holds the key of an update. What is kept of the key names one at most,
/// which holds the key only while it is unended and not committed.
pub(crate) fn holder_of(
    keys: &[KeyState],
    table: &TransTable,
    logged: &RecordView<'_>,
) -> Option<TransId>
    ensures { TellsHolder keys.now table.now (shown logged.now) result }
{
    match &logged.body {
        BodyView::Update { key, .. } => match kept_of(keys, *key) {
            Some(kept) => holder_in(kept, table, logged.trans),
            None => None,
        },
        _ => None,
    }
}

/// The transaction that holds a key against another one.
fn holder_in(kept: &KeyState, table: &TransTable, trans: TransId) -> Option<TransId>
    ensures { TellsHolderIn kept.now table.now trans result }
{
    if kept.count == 0 {
        return None;
    }
    if kept.holder.0 == trans.0 {
        return None;
    }
    if is_still_open(table, kept.holder) {
        return Some(kept.holder);
    }
    None
}

/// 14: an update whose before image is another than the key has.
pub(crate) fn is_stale(keys: &[KeyState], logged: &RecordView<'_>) -> bool
    ensures { TellsStale keys.now (shown logged.now) result }
{
    match &logged.body {
        BodyView::Update { key, before, .. } => match kept_of(keys, *key) {
            Some(kept) => !kept.image.is(before),
            None => true,
        },
        _ => false,
    }
}

/// 15: the first record of one transaction too many.
pub(crate) fn is_one_too_many(past: &Past, count: usize, logged: &RecordView<'_>) -> bool
    ensures { TellsOneTooMany past.now count (shown logged.now) result }
{
    does_overflow(past.row, count, logged)
}

/// 16: a checkpoint's record that names a transaction, or does not fit those before it.
pub(crate) fn is_bad_checkpoint(begun: Lsn, logged: &RecordView<'_>) -> bool
    ensures { TellsBadCheckpoint begun (shown logged.now) result }
{
    !does_fit(begun, logged)
}
