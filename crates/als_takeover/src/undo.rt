ghost use Rattle.std.specs.Prelude.{◌≡◌, ℕ, ◌<◌, ◌≤◌, IsTrue, List, length, OnOk, IfOk, IfErr, IfSome};
ghost use Rattle.std.specs.Prelude.{MatchOption, slice_index, slice_index_or};
ghost use Rattle.als_record.specs.Tail.{tail_of, undone};
ghost use Rattle.als_record.specs.Validity.{is_valid};
ghost use Rattle.als_record.specs.declared.record.Record.{Record as AnyRecord};
ghost use Rattle.als_analysis.specs.declared.open_row.OpenRow.{OpenRow as AnyRow};
ghost use Rattle.als_analysis.specs.Noted.{IsTableOf};
ghost use Rattle.als_takeover.specs.Next.{first_of, is_over, undo_of, AreCursors, IsNewest};
ghost use Rattle.als_takeover.specs.Next.{IsTurn, IsTop, AreUnfinished, CannotRead, NoneToUndo};
ghost use Rattle.als_takeover.specs.Next.{cursor_in};

use crate::chain::{is_update_record, let_go, next_of};
use als_analysis::{OpenRow, TransTable};
use als_disk::BlockDisk;
use als_log::{Fault, LocalLog};
use als_record::{
    Body, BodyView, Lsn, Record, TRANSACTION_LIMIT, TransactionRow, TransactionState,
};

/// Where the undo of each transaction goes on, by the places of their rows.
type Cursors = [u64; TRANSACTION_LIMIT];

/// Whether nothing of a transaction is to be undone, so that it ends: it has committed, or no update
/// of it survives. One in doubt does not end.
fn is_finished(kept: &OpenRow) -> bool
    ensures { result ≡ is_over kept.now }
{
    match kept.row().state {
        TransactionState::Committed => true,
        TransactionState::Active | TransactionState::RollingBack => kept.left() == 0,
        TransactionState::Prepared => false,
    }
}

/// Where the undo of a transaction goes on: nowhere, which is 0, of one in doubt.
fn cursor_of(row: TransactionRow) -> u64
    ensures { result ≡ cursor_in row }
{
    match row.state {
        TransactionState::Prepared => 0,
        _ => row.undo_next.0,
    }
}

/// The place of the first transaction with nothing to undo, or else that of the one whose undo goes
/// on at the greatest LSN.
// Not inlined: the loop's jumps are short in a function of its own, and it takes half the time.
#[inline(never)]
fn turn_of(rows: &[OpenRow]) -> usize
    requires { 0 < length rows.now }
    ensures { IsTurn rows.now result }
{
    let mut greatest = 0;
    let mut top = 0;
    for at in 0..rows.len() {
        let kept = &rows[at];
        if is_finished(kept) {
            return at;
        }
        let here = cursor_of(kept.row());
        if top < here {
            greatest = at;
            top = here;
        }
    }
    greatest
}

/// Where the undo of each transaction goes on.
fn cursors_of(rows: &[OpenRow]) -> Cursors
    requires { length rows.now ≤ 256 }
    ensures { (k : ℕ) (d : AnyRow) → k < length rows.now
        → slice_index result k ≡ cursor_in (slice_index_or rows.now k d).row }
{
    let mut cursors = [0; TRANSACTION_LIMIT];
    for at in 0..rows.len() {
        cursors[at] = cursor_of(rows[at].row());
    }
    cursors
}

/// The place of the greatest of the first cursors.
fn greatest_of(cursors: &Cursors, count: usize) -> usize
    requires { count ≤ 256 }
    ensures within { 0 < count → result < count }
    ensures top { (k : ℕ) → k < count
        → slice_index cursors.now k ≤ slice_index cursors.now result }
{
    let mut greatest = 0;
    for at in 1..count {
        if cursors[greatest] < cursors[at] {
            greatest = at;
        }
    }
    greatest
}

/// The newest update to be undone of all transactions, with the place of its transaction; `None`
/// where nothing is to be undone. The record at the greatest cursor is read. Where it is no update,
/// that cursor moves to where its undo goes on, and all are compared again: another transaction may
/// now have the newest one.
fn newest_of<D: BlockDisk>(
    log: &mut LocalLog<D>,
    cursors: &mut Cursors,
    count: usize,
) -> Result<Option<(usize, Record)>, Fault>
    requires { count ≤ 256 }
    ensures found { (ts : List ℕ) → IsTrue (is_valid log.old.log) → length ts ≡ count
        → AreCursors log.old.log ts cursors.old
        → IfOk result (λ found. MatchOption found (NoneToUndo log.old.log ts) (λ x. IsNewest log.old.log
        ts x.0 x.1)) }
    ensures within { IfOk result (λ found. IfSome found (λ x. x.0 < count)) }
    ensures same { OnOk result (log.new ≡ log.old) }
    ensures err { (ts : List ℕ) → IsTrue (is_valid log.old.log) → length ts ≡ count
        → AreCursors log.old.log ts cursors.old
        → IfErr result (λ e. CannotRead e log.old log.new) }
{
    if count == 0 {
        return Ok(None);
    }
    'chains: loop {
        let at = greatest_of(cursors, count);
        let here = cursors[at];
        // No cursor is above 0: each transaction is in doubt.
        if here == 0 {
            return Ok(None);
        }
        let looked = log.record(Lsn(here))?;
        match looked {
            None => return Ok(None),
            Some(found) => {
                if is_update_record(&found) {
                    return Ok(Some((at, found)));
                }
                let next = next_of(&found);
                let_go(found);
                // The chains of a valid log go down.
                if here <= next {
                    return Ok(None);
                }
                cursors[at] = next;
            }
        }
    }
}

/// What undoes an update: its key gets its before image back, and undo goes on at the record before
/// it.
fn undone_by(update: &Record) -> Body
    ensures { result ≡ undone update.now.prev update.now.body }
{
    let update = update.view();
    match &update.body {
        BodyView::Update { key, before, .. } => Body::Compensation {
            undo_next: update.prev,
            key: *key,
            after: before.to_image(),
        },
        _ => Body::End,
    }
}

/// The record at the log's end that follows the last one of a transaction.
fn record_of(kept: &OpenRow, end: Lsn, body: Body) -> Record
    ensures { result ≡ record {
      lsn = end;
      prev = kept.now.row.last;
      trans = kept.now.row.trans;
      body = body;
    } }
{
    let row = kept.row();
    Record {
        lsn: end,
        prev: row.last,
        trans: row.trans,
        body,
    }
}

/// The compensation of an update of a transaction.
fn compensation_of(kept: &OpenRow, end: Lsn, update: &Record) -> Record
    ensures { result ≡ undo_of kept.now end update.now }
{
    record_of(kept, end, undone_by(update))
}

/// The compensation of the newest update to be undone of all these transactions, found along their
/// undo chains.
fn undo_along<D: BlockDisk>(
    log: &mut LocalLog<D>,
    rows: &[OpenRow],
    end: Lsn,
) -> Result<Option<Record>, Fault>
    requires { length rows.now ≤ 256 }
    ensures next { AreUnfinished log.old.log end.0 rows.now
        → IfOk result (λ found. found ≡ first_of (tail_of log.old.log)) }
    ensures same { OnOk result (log.new ≡ log.old) }
    ensures err { AreUnfinished log.old.log end.0 rows.now
        → IfErr result (λ e. CannotRead e log.old log.new) }
{
    let mut cursors = cursors_of(rows);
    let newest = newest_of(log, &mut cursors, rows.len())?;
    match newest {
        Some((at, update)) => {
            let made = compensation_of(&rows[at], end, &update);
            let_go(update);
            Ok(Some(made))
        }
        None => Ok(None),
    }
}

/// The same, where it is known of which transaction undo goes on at the greatest LSN. Most often an
/// update stands there, and no chain is walked.
fn undo_at<D: BlockDisk>(
    log: &mut LocalLog<D>,
    rows: &[OpenRow],
    at: usize,
    end: Lsn,
) -> Result<Option<Record>, Fault>
    requires few { length rows.now ≤ 256 }
    requires within { at < length rows.now }
    requires top { IsTop rows.now at }
    ensures next { AreUnfinished log.old.log end.0 rows.now
        → IfOk result (λ found. found ≡ first_of (tail_of log.old.log)) }
    ensures same { OnOk result (log.new ≡ log.old) }
    ensures err { AreUnfinished log.old.log end.0 rows.now
        → IfErr result (λ e. CannotRead e log.old log.new) }
{
    let here = cursor_of(rows[at].row());
    // No undo goes on above 0: each transaction is in doubt.
    if here == 0 {
        return Ok(None);
    }
    let looked = log.record(Lsn(here))?;
    if let Some(found) = looked {
        if is_update_record(&found) {
            let made = compensation_of(&rows[at], end, &found);
            let_go(found);
            return Ok(Some(made));
        }
        let_go(found);
    }
    undo_along(log, rows, end)
}

/// The next record that a takeover appends to its log: the first one of the log's tail, `None`
/// where each unended transaction is in doubt. First each transaction with nothing to undo ends, in
/// rising TransID; then the updates of all losers are undone in one falling sweep, whoever wrote
/// them, and a transaction ends after its last one.
///
/// The updates are read from the log, along the undo chains of all losers at once: no memory is
/// taken. What a compensation has undone is passed over by its UndoNxtLSN.
///
/// `Device`: a read of the device failed, and the log is as it was.
pub fn next_undo<D: BlockDisk>(
    table: &TransTable,
    log: &mut LocalLog<D>,
) -> Result<Option<Record>, Fault>
    ensures next { IsTrue (is_valid log.old.log) → IsTableOf table.now log.old.log
        → IfOk result (λ found. found ≡ first_of (tail_of log.old.log)) }
    ensures same { OnOk result (log.new ≡ log.old) }
    ensures err { IsTrue (is_valid log.old.log) → IsTableOf table.now log.old.log
        → IfErr result (λ e. CannotRead e log.old log.new) }
{
    let rows = table.rows();
    let end = log.end();
    if rows.is_empty() {
        return Ok(None);
    }
    let at = turn_of(rows);
    if is_finished(&rows[at]) {
        return Ok(Some(record_of(&rows[at], end, Body::End)));
    }
    undo_at(log, rows, at, end)
}
