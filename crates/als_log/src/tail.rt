// The text's bytes in memory: those from a block's first byte on.
ghost use Rattle.std.specs.Prelude.{◌≡◌, ◌≤◌, ◌+◌, ◌^◌, length, drop, vec_len, vec_capacity};
ghost use Rattle.als_record.specs.Reading.{word_at};
ghost use Rattle.als_record.specs.LogText.{end_of};
ghost use Rattle.als_log.specs.History.{records_in};
ghost use Rattle.als_log.specs.Local.{IsFrontEnd, whole_end};
ghost use Rattle.als_log.specs.Held.{IsText};

use crate::history::History;

/// The number in four bytes at a place.
pub(crate) fn word(bytes: &[u8], at: usize) -> u32
    requires { at + 4 ≤ length bytes.now }
    ensures { result ≡ word_at at bytes.now }
{
    let (_, rest) = bytes.split_at(at);
    let (field, _) = rest.split_at(4);
    u32::from_be_bytes([field[0], field[1], field[2], field[3]])
}

/// The end of the last record that ends at or below a limit, from the end of an earlier one on.
/// Each record is stepped over by its length field.
pub(crate) fn whole_end_of(history: &History, bytes: &[u8], base: u64, from: u64, limit: u64) -> u64
    requires text { IsText (records_in history.now) bytes.now base }
    requires from { IsFrontEnd (records_in history.now) from }
    requires low { base ≤ from }
    requires order { from ≤ limit }
    requires limit { limit ≤ end_of (records_in history.now) }
    requires few { end_of (records_in history.now) ≤ 2 ^ 32 }
    ensures end { result ≡ whole_end (records_in history.now) limit }
    ensures front { IsFrontEnd (records_in history.now) result }
    ensures order { (from ≤ result) × (result ≤ limit) }
{
    let mut at = from;
    while at < limit {
        let next = at + u64::from(word(bytes, (at - base) as usize));
        if limit < next {
            return at;
        }
        at = next;
    }
    at
}

/// Forgets the first bytes. It takes no memory.
pub(crate) fn drop_front(bytes: &mut Vec<u8>, count: usize)
    requires { count ≤ vec_len bytes.old }
    ensures items { bytes.new.items ≡ drop count bytes.old.items }
    ensures len { vec_len bytes.new + count ≡ vec_len bytes.old }
    ensures capacity { vec_capacity bytes.new ≡ vec_capacity bytes.old }
{
    if count == 0 {
        return;
    }
    let left = bytes.len() - count;
    bytes.copy_within(count.., 0);
    bytes.truncate(left);
}
