ghost use Rattle.std.specs.Prelude.{◌≡◌, ◌≤◌, ◌+◌, ◌*◌, length};
ghost use Rattle.als_record.specs.Reading.{half_at};

use crate::rows::{PageRows, TransactionRows};

/// The rows of an end_chkpt as they lie in its record's bytes, behind the two counts.
#[derive(Clone, Copy)]
pub struct SpelledRows<'a> {
    pub(crate) bytes: &'a [u8],
    pub ghost few_transactions: { half_at 0 bytes.now ≤ 256 },
    pub ghost few_pages: { half_at 2 bytes.now ≤ 4096 },
    pub ghost whole: { length bytes.now ≡ 4 + 21 * half_at 0 bytes.now + 12 * half_at 2 bytes.now },
}

/// The rows of an end_chkpt, which are not copied.
#[derive(Clone, Copy)]
pub enum RowsView<'a> {
    /// They lie in a record's bytes.
    Spelled {
        rows: SpelledRows<'a>,
    },
    /// They lie in a record.
    Kept {
        transactions: &'a TransactionRows,
        pages: &'a PageRows,
    },
}
