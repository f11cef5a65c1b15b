ghost use Rattle.std.specs.Prelude.{◌≡◌, ◌+◌, ◌*◌, ◌≤◌, length, take, drop, IfErr, IfOk, Ok, Err};
ghost use Rattle.als_record.specs.Reading.{transaction_at, transactions_at, page_row_at, pages_at};
ghost use Rattle.als_record.specs.Spelled.{rows_in};

use crate::fields::{half, long, word};
use crate::lsn::Lsn;
use crate::record::Body;
use crate::rows::{LoggedPage, LoggedTransaction, PageRows, TransactionRows};
use crate::rows_view::{RowsView, SpelledRows};
use crate::trans_id::TransId;
use std::alloc::{AllocError, Global};

fn transaction(bytes: &[u8]) -> LoggedTransaction
    requires { 21 ≤ length bytes.now }
    ensures { result ≡ transaction_at bytes.now }
{
    LoggedTransaction {
        trans: TransId(word(bytes, 0)),
        state: bytes[4],
        last: Lsn(long(bytes, 5)),
        undo_next: Lsn(long(bytes, 13)),
    }
}

fn page(bytes: &[u8]) -> LoggedPage
    requires { 12 ≤ length bytes.now }
    ensures { result ≡ page_row_at bytes.now }
{
    LoggedPage {
        page: word(bytes, 0),
        rec_lsn: Lsn(long(bytes, 4)),
    }
}

/// As many transaction rows as are counted.
fn transactions(alloc: Global, count: usize, bytes: &[u8]) -> Result<TransactionRows, AllocError>
    requires limit { count ≤ 256 }
    requires size { 21 * count ≤ length bytes.now }
    ensures { IfOk result (λ rows. rows ≡ transactions_at count bytes.now) }
{
    let mut rows = TransactionRows::with_capacity(alloc, count)?;
    let mut rest = bytes;
    for _ in 0..count {
        rows.push(transaction(rest))?;
        let (_, after) = rest.split_at(21);
        rest = after;
    }
    Ok(rows)
}

/// As many page rows as are counted.
fn pages(alloc: Global, count: usize, bytes: &[u8]) -> Result<PageRows, AllocError>
    requires limit { count ≤ 4096 }
    requires size { 12 * count ≤ length bytes.now }
    ensures { IfOk result (λ rows. rows ≡ pages_at count bytes.now) }
{
    let mut rows = PageRows::with_capacity(alloc, count)?;
    let mut rest = bytes;
    for _ in 0..count {
        rows.push(page(rest))?;
        let (_, after) = rest.split_at(12);
        rest = after;
    }
    Ok(rows)
}

impl RowsView<'_> {
    ghost use Rattle.als_record.specs.Shown.{shown_rows};

    /// The body of an end_chkpt with these rows, which are copied.
    #[inline(never)]
    pub(crate) fn to_body(&self, alloc: Global) -> Result<Body, AllocError>
        ensures { IfOk result (λ body. body ≡ shown_rows self.now) }
    {
        match *self {
            RowsView::Spelled { rows } => spelled(alloc, rows),
            RowsView::Kept {
                transactions,
                pages,
            } => Ok(Body::EndCheckpoint {
                transactions: transactions.copy(alloc)?,
                pages: pages.copy(alloc)?,
            }),
        }
    }
}

/// The body of an end_chkpt of which the rows lie in bytes.
fn spelled(alloc: Global, view: SpelledRows<'_>) -> Result<Body, AllocError>
    ensures { IfOk result (λ body. body ≡ rows_in view.entry.bytes.now) }
{
    let bytes = view.bytes;
    let transaction_count = half(bytes, 0) as usize;
    let page_count = half(bytes, 2) as usize;
    let (_, rows) = bytes.split_at(4);
    let transactions = transactions(alloc, transaction_count, rows)?;
    let (_, second) = rows.split_at(21 * transaction_count);
    let pages = pages(alloc, page_count, second)?;
    Ok(Body::EndCheckpoint {
        transactions,
        pages,
    })
}
