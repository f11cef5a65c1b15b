ghost use Rattle.std.specs.Prelude.{◌≡◌, ℕ, ◌<◌, ◌≤◌, ◌+◌, ◌%◌, ◌^◌, true, false, IsTrue, List, [], ◌∷◌};
ghost use Rattle.std.specs.Prelude.{◌++◌, length, slice_index_or, slice_set, IfSome, IfNone, IfOk};
ghost use Rattle.std.specs.Prelude.{IsOk, ◌↔◌, MatchOption};
ghost use Rattle.std.specs.List.{remove, All};
ghost use Rattle.als_record.specs.declared.record.Record.{Record};
ghost use Rattle.als_record.specs.declared.transaction_row.TransactionRow.{TransactionRow};
ghost use Rattle.als_record.specs.Transactions.{is_transactional, is_end, is_update, is_among};
ghost use Rattle.als_record.specs.Transactions.{is_unended};
ghost use Rattle.als_record.specs.Images.{image_before};
ghost use Rattle.als_record.specs.Shown.{shown, shown_body, shown_image};
ghost use Rattle.als_record.specs.Table.{table_of, row_after, fresh_row};
ghost use Rattle.als_record.specs.LogText.{end_of};
ghost use Rattle.als_record.specs.Tail.{reserve_of};
ghost use Rattle.als_record.specs.Validity.{may_follow};
ghost use Rattle.als_analysis.specs.Open.{count_after, bytes_after, rows_of, left_of};
ghost use Rattle.als_analysis.specs.Kept.{IsRising, IsPlace, numbers};
ghost use Rattle.als_analysis.specs.Noted.{IsTableOf, IsOpenOf, StandsAt, WithRecord, GoesOn};
ghost use Rattle.als_analysis.specs.Noted.{undo_next_in};

use crate::fault::Fault;
use crate::open_row::{OpenRow, owed_anew};
use als_record::{BodyView, ImageView, Lsn, RecordView, TRANSACTION_LIMIT, TransId};
use std::alloc::Global;
use std::marker::Model;

/// How many places are remembered, by the low bits of TransIDs.
const PLACE_COUNT: usize = 1024;

/// Up to so many transactions it is shorter to remember each of them anew than to go over all
/// places.
const FEW: usize = 64;

/// The transaction table of ARIES, kept as its log grows: the unended transactions in rising
/// TransID, with the number of the updates that survive of each, and the bytes that a takeover and
/// decisions may append. It keeps no update, and has room for as many rows as a log can have: its size does
/// not depend on the log.
pub struct TransTable {
    entries: Vec<OpenRow>,
    // Modulo 2^64, which is exact for the log of a device.
    reserve: u64,
    // Where a transaction stands, by the low bits of its TransID: asked first and not relied on,
    // since two may share a place.
    places: [u8; PLACE_COUNT],
}

// Written out: a derived drop is proved wherever a table is dropped, this one only here.
impl Drop for TransTable {
    fn drop(self) {
        let TransTable {
            entries,
            reserve: _,
            places: _,
        } = self;
        drop(entries);
    }
}

impl Model for TransTable {
    ghost use Rattle.std.specs.Prelude.{vec_capacity};
    ghost use Rattle.als_analysis.specs.Noted.{Table};
    ghost use Rattle.als_analysis.specs.Open.{rows_of, left_of, bytes_of};
    ghost use Rattle.als_analysis.specs.Kept.{IsKept};

    ghost Value = { Table };

    ghost view = { λ t. record {
      rows = rows_of t.entries.items;
      left = left_of t.entries.items;
      bytes = bytes_of t.entries.items;
    } };

    ghost invariant = { λ t. IsKept t.entries.items t.reserve (vec_capacity t.entries) };
}

/// Whether a record ends its transaction.
fn is_end_record(body: &BodyView<'_>) -> bool
    ensures { result ≡ is_end (shown_body body.now) }
{
    matches!(body, BodyView::End)
}

/// Whether a record belongs to a transaction: all but those of checkpoints.
fn is_transaction_record(body: &BodyView<'_>) -> bool
    ensures { result ≡ is_transactional (shown_body body.now) }
{
    !matches!(
        body,
        BodyView::BeginCheckpoint | BodyView::EndCheckpoint { .. }
    )
}

/// Whether there are transactions, none of them below this one.
fn is_below_all(entries: &[OpenRow], trans: TransId) -> bool
    requires { IsRising entries.now }
    ensures { IsTrue result → IsPlace entries.now trans.0 0 }
{
    if entries.is_empty() {
        return false;
    }
    trans.0 <= entries[0].row().trans.0
}

/// Whether there are transactions, all of them below this one.
fn is_above_all(entries: &[OpenRow], trans: TransId) -> bool
    requires { IsRising entries.now }
    ensures { IsTrue result → IsPlace entries.now trans.0 (length entries.now) }
{
    let count = entries.len();
    if count == 0 {
        return false;
    }
    entries[count - 1].row().trans.0 < trans.0
}

/// The first place whose transaction is not below this one, searched for.
fn search(entries: &[OpenRow], trans: TransId) -> usize
    requires { IsRising entries.now }
    ensures { IsPlace entries.now trans.0 result }
{
    entries.partition_point(|o| o.row().trans.0 < trans.0)
}

/// The first place whose transaction is not below this one. Most often that of an old or a new
/// transaction is asked for.
fn place_of(entries: &[OpenRow], trans: TransId) -> usize
    requires { IsRising entries.now }
    ensures { IsPlace entries.now trans.0 result }
{
    if is_below_all(entries, trans) {
        return 0;
    }
    if is_above_all(entries, trans) {
        return entries.len();
    }
    search(entries, trans)
}

/// Where a transaction's place is remembered.
fn bucket_of(trans: TransId) -> usize
    ensures { result < 1024 }
{
    trans.0 as usize % PLACE_COUNT
}

/// Remembers where a transaction stands.
fn remember(places: &mut [u8; PLACE_COUNT], trans: TransId, at: usize) {
    places[bucket_of(trans)] = u8::try_from(at).unwrap_or(0);
}

/// The transactions above this place stand one lower: all places are gone over.
fn move_down(places: &mut [u8; PLACE_COUNT], at: usize) {
    let gone = u8::try_from(at).unwrap_or(0);
    for place in places.iter_mut() {
        *place = place.saturating_sub(u8::from(*place > gone));
    }
}

/// Remembers where the transactions from this place on stand.
fn remember_from(places: &mut [u8; PLACE_COUNT], entries: &[OpenRow], from: usize) {
    for at in from..entries.len() {
        remember(places, entries[at].row().trans, at);
    }
}

/// One transaction is gone from this place, and those behind it stand one lower.
fn close_up(places: &mut [u8; PLACE_COUNT], entries: &[OpenRow], at: usize) {
    if entries.len().saturating_sub(at) <= FEW {
        return remember_from(places, entries, at);
    }
    move_down(places, at)
}

impl TransTable {
    /// The table of the empty log. It takes the room for all rows.
    pub fn new(alloc: Global) -> Result<TransTable, Fault>
        ensures { IfOk result (λ table. IsTableOf table []) }
    {
        Ok(TransTable {
            entries: Vec::with_capacity(alloc, TRANSACTION_LIMIT)?,
            reserve: 0,
            places: [0; PLACE_COUNT],
        })
    }

    /// Another record of the transaction at this place.
    fn extend(&mut self, at: usize, logged: &RecordView<'_>)
        requires within { at < length self.old.rows }
        ensures rows { (d : TransactionRow)
            → self.new.rows ≡ slice_set self.old.rows at
            (row_after (slice_index_or self.old.rows at d) (shown logged.now)) }
        ensures left { (d : ℕ) → self.new.left
            ≡ slice_set self.old.left at
            (count_after (slice_index_or self.old.left at d) (shown_body logged.now.body)) }
        ensures bytes { (d : ℕ) → self.new.bytes
            ≡ slice_set self.old.bytes at
            (bytes_after (slice_index_or self.old.bytes at d) (shown_body logged.now.body)) }
    {
        let entry = &mut self.entries[at];
        let before = entry.owed();
        entry.extend(logged);
        let after = entry.owed();
        self.reserve = self.reserve.wrapping_sub(before).wrapping_add(after);
    }

    /// The end of the transaction at this place.
    fn close(&mut self, at: usize)
        requires within { at < length self.old.rows }
        ensures rows { self.new.rows ≡ remove self.old.rows at }
        ensures left { self.new.left ≡ remove self.old.left at }
        ensures bytes { self.new.bytes ≡ remove self.old.bytes at }
    {
        let ended = self.entries.remove(at);
        self.reserve = self.reserve.wrapping_sub(ended.owed());
        close_up(&mut self.places, self.entries.as_slice(), at);
    }

    /// The first record of a transaction.
    fn begin(&mut self, logged: &RecordView<'_>)
        requires few { length self.old.rows < 256 }
        requires rising { All (λ row. row.trans.0 < logged.now.trans.0) self.old.rows }
        ensures rows { self.new.rows ≡ self.old.rows
            ++ row_after (fresh_row logged.now.trans.0) (shown logged.now) ∷ [] }
        ensures left { self.new.left ≡ self.old.left
            ++ count_after 0 (shown_body logged.now.body) ∷ [] }
        ensures bytes { self.new.bytes ≡ self.old.bytes
            ++ bytes_after 0 (shown_body logged.now.body) ∷ [] }
    {
        let at = self.entries.len();
        let mut opened = OpenRow::fresh(logged.trans);
        opened.extend(logged);
        self.reserve = self.reserve.wrapping_add(opened.owed());
        self.entries.push_reserved(opened);
        remember(&mut self.places, logged.trans, at);
    }

    /// The place of a transaction's row, searched for.
    fn find_by_search(&self, trans: TransId) -> Option<usize>
        ensures within { IfSome result (λ i. i < length self.now.rows) }
        ensures here { IfSome result (λ i. (d : TransactionRow)
            → (slice_index_or self.now.rows i d).trans.0 ≡ trans.0) }
        ensures none { IfNone result (is_among (numbers self.now.rows) trans.0 ≡ false) }
    {
        let entries = self.entries.as_slice();
        let at = place_of(entries, trans);
        if at >= entries.len() {
            return None;
        }
        let row = entries[at].row();
        if row.trans.0 != trans.0 {
            return None;
        }
        Some(at)
    }

    /// The place of a transaction's row: that which is remembered, if it is there.
    fn find(&self, trans: TransId) -> Option<usize>
        ensures within { IfSome result (λ i. i < length self.now.rows) }
        ensures here { IfSome result (λ i. (d : TransactionRow)
            → (slice_index_or self.now.rows i d).trans.0 ≡ trans.0) }
        ensures none { IfNone result (is_among (numbers self.now.rows) trans.0 ≡ false) }
    {
        let at = self.places[bucket_of(trans)] as usize;
        if at < self.entries.len() && self.entries[at].row().trans.0 == trans.0 {
            return Some(at);
        }
        self.find_by_search(trans)
    }

    /// The place of a transaction's row among `rows`. `None`: it has no row.
    pub fn place(&self, trans: TransId) -> Option<usize>
        ensures within { IfSome result (λ at. at < length self.now.rows) }
        ensures stands { (log : List Record) → IsTableOf self.now log
            → MatchOption result (is_unended log trans.0
            ≡ false) (λ at. StandsAt log trans.0 at) }
    {
        match self.find(trans) {
            Some(at) => Some(at),
            None => None,
        }
    }

    /// What is kept of an unended transaction. `None`: it has no row.
    pub fn open_of(&self, trans: TransId) -> Option<&OpenRow>
        ensures { (log : List Record) → IsTableOf self.now log
            → MatchOption result (is_unended log trans.0
            ≡ false) (λ kept. IsOpenOf kept.now log trans.0) }
    {
        match self.find(trans) {
            Some(at) => Some(&self.entries[at]),
            None => None,
        }
    }

    /// Whether there is place for a transaction above all others.
    fn can_begin(&self, trans: TransId) -> bool
        ensures { IsTrue result ↔ ((length self.now.rows < 256)
            × All (λ row. row.trans.0 < trans.0) self.now.rows) }
    {
        self.entries.len() < TRANSACTION_LIMIT
            && place_of(self.entries.as_slice(), trans) == self.entries.len()
    }

    /// A record of a transaction with a row.
    fn note_known(&mut self, at: usize, logged: &RecordView<'_>)
        requires within { at < length self.old.rows }
        requires here { (d : TransactionRow)
            → (slice_index_or self.old.rows at d).trans.0 ≡ logged.now.trans.0 }
        requires kind { is_transactional (shown_body logged.now.body) ≡ true }
        ensures { GoesOn self.old (shown logged.now) self.new }
    {
        if is_end_record(&logged.body) {
            self.close(at);
            return;
        }
        self.extend(at, logged);
    }

    /// A record of a transaction without a row. One that can't follow a valid log may be passed
    /// over.
    fn note_new(&mut self, logged: &RecordView<'_>)
        requires absent { is_among (numbers self.old.rows) logged.now.trans.0 ≡ false }
        requires kind { is_transactional (shown_body logged.now.body) ≡ true }
        ensures { GoesOn self.old (shown logged.now) self.new }
    {
        if is_end_record(&logged.body) {
            return;
        }
        if !self.can_begin(logged.trans) {
            return;
        }
        self.begin(logged);
    }

    /// Any record.
    fn put(&mut self, logged: &RecordView<'_>)
        ensures { GoesOn self.old (shown logged.now) self.new }
    {
        if !is_transaction_record(&logged.body) {
            return;
        }
        match self.find(logged.trans) {
            Some(at) => self.note_known(at, logged),
            None => self.note_new(logged),
        }
    }

    /// Notes a record: of the table of a log it makes the table of the log with that record, where
    /// the record may follow. Of any other record it is only said that nothing breaks. It takes no
    /// memory, whatever the record is. The cost does not depend on how long the log is, nor on how
    /// many updates of a transaction survive.
    pub fn note(&mut self, logged: &RecordView<'_>) -> Result<(), Fault>
        ensures ok { IsOk result }
        ensures noted { GoesOn self.old (shown logged.now) self.new }
    {
        self.put(logged);
        Ok(())
    }

    /// Notes an update, which has this before image, of the transaction at this place: of the table
    /// of a log it makes the table of the log with that update, where the update may follow. It does
    /// what `note` does of it, asks for no kind and looks for no row.
    #[inline(always)]
    pub fn note_update(&mut self, at: usize, logged: &RecordView<'_>, before: &ImageView<'_>)
        requires within { at < length self.old.rows }
        requires kind { is_update (shown_body logged.now.body) ≡ true }
        requires before { image_before (shown_body logged.now.body) ≡ shown_image before.now }
        ensures { (log : List Record) → IsTableOf self.old log
            → IsTrue (may_follow log (shown logged.now))
            → StandsAt log logged.now.trans.0 at
            → IsTableOf self.new (log ++ (shown logged.now) ∷ []) }
    {
        let entry = &mut self.entries[at];
        let had = entry.owed();
        entry.update(logged, before);
        let has = entry.owed();
        self.reserve = self.reserve.wrapping_sub(had).wrapping_add(has);
    }

    /// The rows of the transaction table in rising TransID, each with the number of the updates that
    /// survive of its transaction.
    pub fn rows(&self) -> &[OpenRow]
        ensures table { (log : List Record) → IsTableOf self.now log
            → rows_of result.now ≡ table_of log }
        ensures rows { rows_of result.now ≡ self.now.rows }
        ensures left { left_of result.now ≡ self.now.left }
        ensures rising { IsRising result.now }
        ensures few { length result.now ≤ 256 }
    {
        self.entries.as_slice()
    }

    /// UndoNxtLSN of a transaction's row: where its undo goes on, 0 where there is nothing to undo.
    /// `None`: it has no row.
    pub fn undo_next_of(&self, trans: TransId) -> Option<Lsn>
        ensures { (log : List Record) → IsTableOf self.now log → result ≡ undo_next_in log trans.0 }
    {
        match self.find(trans) {
            Some(at) => Some(self.entries[at].row().undo_next),
            None => None,
        }
    }

    /// The bytes that must stay free behind the log, for a takeover and for the decisions of
    /// transactions in doubt: a kept sum, exact for a log of less than 2^62 bytes.
    pub fn reserve_bytes(&self) -> u64
        ensures { (log : List Record) → IsTableOf self.now log → end_of log < 2 ^ 62
            → result ≡ reserve_of log }
    {
        self.reserve
    }

    /// What must stay free after another record of the transaction at this place, modulo
    /// 2^64.
    fn reserve_after_known(&self, at: usize, logged: &RecordView<'_>) -> u64
        requires within { at < length self.now.rows }
        requires here { (d : TransactionRow)
            → (slice_index_or self.now.rows at d).trans.0 ≡ logged.now.trans.0 }
        requires kind { is_transactional (shown_body logged.now.body) ≡ true }
        ensures { WithRecord self.now (shown logged.now) (λ log. result ≡ reserve_of log % 2 ^ 64) }
    {
        let entry = &self.entries[at];
        let others = self.reserve.wrapping_sub(entry.owed());
        if is_end_record(&logged.body) {
            return others;
        }
        others.wrapping_add(entry.owed_after(&logged.body))
    }

    /// What must stay free after a record of a transaction without a row, modulo 2^64.
    fn reserve_after_new(&self, logged: &RecordView<'_>) -> u64
        requires absent { is_among (numbers self.now.rows) logged.now.trans.0 ≡ false }
        requires kind { is_transactional (shown_body logged.now.body) ≡ true }
        ensures { WithRecord self.now (shown logged.now) (λ log. result ≡ reserve_of log % 2 ^ 64) }
    {
        if is_end_record(&logged.body) {
            return self.reserve;
        }
        self.reserve.wrapping_add(owed_anew(&logged.body))
    }

    /// The bytes that must stay free after one more record, before that is noted, exact
    /// for a log of less than 2^62 bytes. It takes no memory, and the cost does not depend on how
    /// long the log is.
    pub fn reserve_after(&self, logged: &RecordView<'_>) -> u64
        ensures { WithRecord self.now (shown logged.now) (λ log. end_of log < 2 ^ 62
            → result ≡ reserve_of log) }
    {
        if !is_transaction_record(&logged.body) {
            return self.reserve;
        }
        match self.find(logged.trans) {
            Some(at) => self.reserve_after_known(at, logged),
            None => self.reserve_after_new(logged),
        }
    }
}
