ghost use Rattle.std.specs.Prelude.{◌≡◌, ◌≤◌, ◌+◌, ◌%◌, ◌^◌, true};
ghost use Rattle.als_record.specs.declared.transaction_state.TransactionState.TheVariants.{Active};
ghost use Rattle.als_record.specs.Spelling.{image_len};
ghost use Rattle.als_record.specs.Shown.{shown, shown_body, shown_image};
ghost use Rattle.als_record.specs.Transactions.{is_update};
ghost use Rattle.als_record.specs.Images.{image_before};
ghost use Rattle.als_record.specs.Table.{row_after, state_after, fresh_row};
ghost use Rattle.als_analysis.specs.Open.{bytes_after, undo_owed, owed, owed_after};
ghost use Rattle.als_analysis.specs.Open.{fresh_open, open_after};

use als_record::{BodyView, ImageView, Lsn, RecordView, TransId, TransactionRow, TransactionState};

/// One transaction that has not ended: its row of the transaction table, how many updates of it
/// survive, and the bytes of the compensations that undo them. It keeps no update. Both numbers are
/// counted from record to record, modulo 2^64, so that any record may be noted: of a valid log they
/// are those of the surviving updates.
#[derive(Clone, Copy)]
pub struct OpenRow {
    row: TransactionRow,
    left: u64,
    undo_bytes: u64,
}

/// The length of a compensation that writes this image, in bytes.
fn compensation_len(image: &ImageView<'_>) -> u64
    ensures len { result ≡ 42 + image_len (shown_image image.now) }
    ensures limit { result ≤ 73 }
{
    42 + image.len() as u64
}

/// The bytes of the compensations to come after one more record of the transaction, modulo 2^64.
fn undo_bytes_after(undo_bytes: u64, body: &BodyView<'_>) -> u64
    ensures { result ≡ bytes_after undo_bytes (shown_body body.now) }
{
    match body {
        BodyView::Update { before, .. } => undo_bytes.wrapping_add(compensation_len(before)),
        BodyView::Compensation { after, .. } => undo_bytes.wrapping_sub(compensation_len(after)),
        _ => undo_bytes,
    }
}

/// The bytes that a takeover, or the decision of a prepared transaction, may append for a
/// transaction in this state, modulo 2^64.
fn owed_in(state: TransactionState, undo_bytes: u64) -> u64
    ensures { result ≡ (28 + undo_owed state undo_bytes) % 2 ^ 64 }
{
    let undo = match state {
        TransactionState::Committed => 0,
        _ => undo_bytes,
    };
    let fixed = match state {
        TransactionState::Prepared => 56,
        _ => 28,
    };
    undo.wrapping_add(fixed)
}

/// The bytes that may be appended for a transaction of which this is the first record, and not its
/// end, modulo 2^64.
pub(crate) fn owed_anew(body: &BodyView<'_>) -> u64
    ensures { result ≡ owed_after Active 0 (shown_body body.now) % 2 ^ 64 }
{
    owed_in(
        next_state(TransactionState::Active, body),
        undo_bytes_after(0, body),
    )
}

/// The state after one more record of the transaction.
fn next_state(state: TransactionState, body: &BodyView<'_>) -> TransactionState
    ensures { result ≡ state_after state (shown_body body.now) }
{
    match (body, state) {
        (BodyView::Commit, _) => TransactionState::Committed,
        (BodyView::Rollback, TransactionState::Committed) => TransactionState::Committed,
        (BodyView::Rollback, _) => TransactionState::RollingBack,
        (BodyView::Prepare, TransactionState::Active) => TransactionState::Prepared,
        _ => state,
    }
}

/// The row of a transaction without a record.
fn row_without_record(trans: TransId) -> TransactionRow
    ensures { result ≡ fresh_row trans.0 }
{
    TransactionRow {
        trans,
        state: TransactionState::Active,
        last: Lsn(0),
        undo_next: Lsn(0),
    }
}

impl OpenRow {
    /// A transaction without a record.
    pub(crate) fn fresh(trans: TransId) -> OpenRow
        ensures { result ≡ fresh_open trans.0 }
    {
        OpenRow {
            row: row_without_record(trans),
            left: 0,
            undo_bytes: 0,
        }
    }

    /// Its row of the transaction table.
    pub fn row(&self) -> TransactionRow
        ensures { result ≡ self.now.row }
    {
        self.row
    }

    /// How many updates of it survive, modulo 2^64.
    pub fn left(&self) -> u64
        ensures { result ≡ self.now.left }
    {
        self.left
    }

    /// The bytes that may be appended for it, modulo 2^64.
    pub(crate) fn owed(&self) -> u64
        ensures { result ≡ owed self.now % 2 ^ 64 }
    {
        owed_in(self.row.state, self.undo_bytes)
    }

    /// The bytes that may be appended for it after one more record of the transaction, which is not
    /// its end, modulo 2^64.
    pub(crate) fn owed_after(&self, body: &BodyView<'_>) -> u64
        ensures { result ≡ owed_after self.now.row.state self.now.undo_bytes
            (shown_body body.now) % 2 ^ 64 }
    {
        owed_in(
            next_state(self.row.state, body),
            undo_bytes_after(self.undo_bytes, body),
        )
    }

    /// Notes an update of the transaction, which has this before image.
    #[inline(always)]
    pub(crate) fn update(&mut self, logged: &RecordView<'_>, before: &ImageView<'_>)
        requires kind { is_update (shown_body logged.now.body) ≡ true }
        requires before { image_before (shown_body logged.now.body) ≡ shown_image before.now }
        ensures { self.new ≡ open_after self.old (shown logged.now) }
    {
        self.row.last = logged.lsn;
        self.row.undo_next = logged.lsn;
        self.left = self.left.wrapping_add(1);
        self.undo_bytes = self.undo_bytes.wrapping_add(compensation_len(before));
    }

    /// Notes one more record of the transaction.
    #[inline(always)]
    pub(crate) fn extend(&mut self, logged: &RecordView<'_>)
        ensures { self.new ≡ open_after self.old (shown logged.now) }
    {
        self.row.last = logged.lsn;
        match &logged.body {
            BodyView::Update { before, .. } => {
                self.row.undo_next = logged.lsn;
                self.left = self.left.wrapping_add(1);
                self.undo_bytes = self.undo_bytes.wrapping_add(compensation_len(before));
            }
            BodyView::Compensation {
                undo_next,
                after,
                ..
            } => {
                self.row.undo_next = *undo_next;
                self.left = self.left.wrapping_sub(1);
                self.undo_bytes = self.undo_bytes.wrapping_sub(compensation_len(after));
            }
            body => self.row.state = next_state(self.row.state, body),
        }
    }
}
