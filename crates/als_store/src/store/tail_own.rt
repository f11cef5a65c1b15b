ghost use Rattle.std.specs.Prelude.{◌≡◌, ℕ, ◌<◌, ◌+◌, ◌^◌, ◌&&◌, not, length, true, List, IsTrue};
ghost use Rattle.std.specs.Prelude.{option_copied, slice_index_or, find, MatchOption, IfSome};
ghost use Rattle.std.specs.Prelude.{None, Some};
ghost use Rattle.als_analysis.specs.declared.open_row.OpenRow.{OpenRow as AnyRow};
ghost use Rattle.als_analysis.specs.Open.{rows_of};
ghost use Rattle.als_record.specs.declared.record.Record.{Record as AnyRecord};
ghost use Rattle.als_record.specs.LogText.{end_of};
ghost use Rattle.als_record.specs.Table.{is_prepared, row_of, table_of};
ghost use Rattle.als_record.specs.Tail.{tail_of, undone};
ghost use Rattle.als_record.specs.Transactions.{is_unended, unended};
ghost use Rattle.als_record.specs.Validity.{is_valid};
ghost use Rattle.als_store.specs.Takeover.{is_following};
ghost use Rattle.als_store.specs.TailOwn.{IsBest, TellsOwed};
ghost use Rattle.als_takeover.specs.Next.{first_of, is_over, is_committed_state, undoing};
ghost use Rattle.als_takeover.specs.Next.{AreUnfinished};
ghost use Rattle.als_validator.specs.Validated.{IsValidatorOf, judges};

use super::Store;
use als_analysis::OpenRow;
use als_disk::BlockDisk;
use als_record::{Body, BodyView, KeptUpdate, Lsn, Record, TransactionState};
use als_validator::Validator;

/// Nothing of a transaction is to be undone, so it ends: it has committed, or no update of it
/// survives. One in doubt does not end.
fn is_done(kept: &OpenRow) -> bool
    ensures { result ≡ is_over kept.now }
{
    match kept.row().state {
        TransactionState::Committed => true,
        TransactionState::Active | TransactionState::RollingBack => kept.left() == 0,
        TransactionState::Prepared => false,
    }
}

/// The updates of an unended transaction in this state are undone.
fn is_lost(state: TransactionState) -> bool
    ensures { result ≡ (not (is_committed_state state) && not (is_prepared state)) }
{
    match state {
        TransactionState::Active | TransactionState::RollingBack => true,
        TransactionState::Committed | TransactionState::Prepared => false,
    }
}

/// The newest update of a transaction that is to be undone, from memory.
fn newest_of<'a>(validator: &'a Validator, kept: &OpenRow) -> Option<&'a KeptUpdate>
    requires { judges validator.now ≡ true }
    ensures { (pages : ℕ) (log : List AnyRecord) (t : ℕ) → IsValidatorOf pages validator.now log
        → is_unended log t ≡ true → kept.now.row ≡ row_of log t
        → option_copied result ≡ first_of (undoing log t) }
{
    let row = kept.row();
    if !is_lost(row.state) {
        return None;
    }
    validator.survivors_of(row.trans).last()
}

/// The place of the transaction whose update is undone first, among those up to this place.
fn better(validator: &Validator, rows: &[OpenRow], best: Option<usize>, at: usize) -> Option<usize>
    requires judged { judges validator.now ≡ true }
    requires within { at < length rows.now }
    requires before { IfSome best (λ place. place < at) }
    ensures best { (pages : ℕ) (log : List AnyRecord) → IsValidatorOf pages validator.now log
        → rows_of rows.now ≡ table_of log → IsBest log (unended log) at best
        → IsBest log (unended log) (at + 1) result }
    ensures within { IfSome result (λ place. place < at + 1) }
{
    match newest_of(validator, &rows[at]) {
        None => best,
        Some(update) => match best {
            None => Some(at),
            Some(place) => match newest_of(validator, &rows[place]) {
                None => Some(at),
                Some(other) => {
                    if update.lsn().0 <= other.lsn().0 {
                        best
                    } else {
                        Some(at)
                    }
                }
            },
        },
    }
}

/// The place of the transaction whose update is undone first; `None` where nothing is undone.
fn first_undone(validator: &Validator, rows: &[OpenRow]) -> Option<usize>
    requires { judges validator.now ≡ true }
    ensures best { (pages : ℕ) (log : List AnyRecord) → IsValidatorOf pages validator.now log
        → rows_of rows.now ≡ table_of log
        → IsBest log (unended log) (length rows.now) result }
    ensures within { IfSome result (λ place. place < length rows.now) }
{
    let mut best = None;
    for at in 0..rows.len() {
        best = better(validator, rows, best, at);
    }
    best
}

/// What undoes an update: its key gets its before image back, and undo goes on at the record before
/// it.
fn undone_by(update: &KeptUpdate) -> Body
    ensures { result ≡ undone update.now.prev update.now.body }
{
    let seen = update.view();
    match &seen.body {
        BodyView::Update { key, before, .. } => Body::Compensation {
            undo_next: seen.prev,
            key: *key,
            after: before.to_image(),
        },
        _ => Body::End,
    }
}

/// The record at the log's end that follows the last one of a transaction.
fn record_of(kept: &OpenRow, end: Lsn, body: Body) -> Record
    ensures { result ≡ record {
      lsn = end;
      prev = kept.now.row.last;
      trans = kept.now.row.trans;
      body = body;
    } }
{
    let row = kept.row();
    Record {
        lsn: end,
        prev: row.last,
        trans: row.trans,
        body,
    }
}

/// The place of the first transaction with nothing to undo.
fn first_done(rows: &[OpenRow]) -> Option<usize>
    ensures found { MatchOption result (find is_over rows.now ≡ None) (λ at.
        (at < length rows.now)
        × ((d : AnyRow) → find is_over rows.now ≡ Some (slice_index_or rows.now at d))) }
{
    for at in 0..rows.len() {
        if is_done(&rows[at]) {
            return Some(at);
        }
    }
    None
}

/// The compensation of the update that is undone first.
fn undo_of_first(validator: &Validator, rows: &[OpenRow], end: Lsn) -> Option<Record>
    requires { judges validator.now ≡ true }
    ensures { (pages : ℕ) (log : List AnyRecord) → IsValidatorOf pages validator.now log
        → AreUnfinished log end.0 rows.now → result ≡ first_of (tail_of log) }
{
    match first_undone(validator, rows) {
        None => None,
        Some(place) => match newest_of(validator, &rows[place]) {
            None => None,
            Some(update) => Some(record_of(&rows[place], end, undone_by(update))),
        },
    }
}

/// The first record of the log's tail, from memory.
fn first_owed(validator: &Validator, end: Lsn) -> Option<Record>
    requires { judges validator.now ≡ true }
    ensures { (pages : ℕ) (log : List AnyRecord) → IsValidatorOf pages validator.now log
        → IsTrue (is_valid log) → end.0 ≡ end_of log → end_of log < 2 ^ 64
        → result ≡ first_of (tail_of log) }
{
    let rows = validator.rows();
    match first_done(rows) {
        Some(at) => Some(record_of(&rows[at], end, Body::End)),
        None => undo_of_first(validator, rows, end),
    }
}

impl<D: BlockDisk> Store<D> {
    /// The next record that is owed: the first one of the log's tail, `None` exactly where that is
    /// empty. It is made from what judging keeps, so nothing is read, however old its transaction
    /// is.
    pub fn next_of_tail(&self) -> Option<Record>
        requires following { is_following self.now.stored ≡ true }
        ensures { TellsOwed self.now.stored.log result }
    {
        first_owed(&self.validator, self.log.end())
    }
}
