ghost use Rattle.std.specs.Prelude.{◌≡◌};
ghost use Rattle.als_ckpt_codec.specs.Checkpoint.{are_transactions, are_pages};

use als_record::{LoggedPage, LoggedTransaction};

/// Whether TransIDs rise, and each state is active, committed, rolling back or prepared.
pub(crate) fn are_transactions(rows: &[LoggedTransaction]) -> bool
    ensures { result ≡ are_transactions 0 rows.now }
{
    let mut least = 0u64;
    for row in rows {
        let trans = row.trans.0 as u64;
        if trans < least || row.state < 1 || 4 < row.state {
            return false;
        }
        least = trans + 1;
    }
    true
}

/// Whether pages rise, and each is below the page count.
pub(crate) fn are_pages(count: u32, rows: &[LoggedPage]) -> bool
    ensures { result ≡ are_pages count 0 rows.now }
{
    let mut least = 0u64;
    for row in rows {
        if (row.page as u64) < least || count <= row.page {
            return false;
        }
        least = row.page as u64 + 1;
    }
    true
}
