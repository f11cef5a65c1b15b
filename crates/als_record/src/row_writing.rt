ghost use Rattle.std.specs.Prelude.{◌≡◌, ◌+◌, ◌*◌, ◌≤◌, ◌++◌, length, vec_len, vec_capacity};
ghost use Rattle.std.specs.List.{flat_map};
ghost use Rattle.als_record.specs.Spelling.{transaction_row, page_row};

use crate::encoding::append;
use crate::rows::{LoggedPage, LoggedTransaction};
use byteorder::{BigEndian, ByteOrder};

#[inline]
#[tactic(auto, unfolding(crate::specs::Spelling::transaction_row))]
fn transaction_bytes(row: LoggedTransaction) -> [u8; 21]
    ensures { result ≡ transaction_row row }
{
    let mut bytes = [0; 21];
    BigEndian::write_u32(&mut bytes, row.trans.0);
    bytes[4] = row.state;
    BigEndian::write_u64(&mut bytes[5..], row.last.0);
    BigEndian::write_u64(&mut bytes[13..], row.undo_next.0);
    bytes
}

#[inline]
#[tactic(auto, unfolding(crate::specs::Spelling::page_row))]
fn page_bytes(row: LoggedPage) -> [u8; 12]
    ensures { result ≡ page_row row }
{
    let mut bytes = [0; 12];
    BigEndian::write_u32(&mut bytes, row.page);
    BigEndian::write_u64(&mut bytes[4..], row.rec_lsn.0);
    bytes
}

/// Appends rows for which there is room.
pub(crate) fn append_transactions(out: &mut Vec<u8>, rows: &[LoggedTransaction])
    requires { vec_len out.old + 21 * length rows.now ≤ vec_capacity out.old }
    ensures items { out.new.items ≡ out.old.items ++ flat_map transaction_row rows.now }
    ensures len { vec_len out.new ≡ vec_len out.old + 21 * length rows.now }
    ensures capacity { vec_capacity out.old ≤ vec_capacity out.new }
{
    for row in rows {
        append(out, &transaction_bytes(*row));
    }
}

/// Appends rows for which there is room.
pub(crate) fn append_pages(out: &mut Vec<u8>, rows: &[LoggedPage])
    requires { vec_len out.old + 12 * length rows.now ≤ vec_capacity out.old }
    ensures items { out.new.items ≡ out.old.items ++ flat_map page_row rows.now }
    ensures len { vec_len out.new ≡ vec_len out.old + 12 * length rows.now }
    ensures capacity { vec_capacity out.old ≤ vec_capacity out.new }
{
    for row in rows {
        append(out, &page_bytes(*row));
    }
}
