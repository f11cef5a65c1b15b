ghost use Rattle.std.specs.Prelude.{◌≤◌, ◌+◌, length};

use crate::key_state::KeyState;
use crate::keys::place;
use als_record::Key;

/// How many records are looked at in one go: the waits for what is kept of their keys then overlap.
const RECORDS_AHEAD: usize = 32;

/// The bytes of a record up to the end of its key, whatever it is.
const FRONT_LEN: usize = 42;

/// The number in four bytes at a place.
fn word(bytes: &[u8], at: usize) -> u32
    requires { at + 4 ≤ length bytes.now }
{
    u32::from_be_bytes([bytes[at], bytes[at + 1], bytes[at + 2], bytes[at + 3]])
}

/// The key at a place.
fn key(bytes: &[u8], at: usize) -> Key
    requires { at + 5 ≤ length bytes.now }
{
    Key {
        page: word(bytes, at),
        slot: bytes[at + 4],
    }
}

/// Where the key stands in a record of this type. One that writes no key has other bytes there:
/// they are taken for a key, so that no jump waits for the type.
fn key_at(kind: u8) -> usize
    ensures { result ≤ 36 }
{
    if kind == 2 { 36 } else { 28 }
}

/// Where the key is kept that the record at the front of these bytes seems to write.
fn place_ahead(front: &[u8]) -> usize
    requires { 42 ≤ length front.now }
{
    place(key(front, key_at(front[4])))
}

/// Finds where the keys are kept that the records at the front of these bytes seem to write, and
/// answers how many bytes these records seem to have.
fn find_ahead(bytes: &[u8], places: &mut [usize; RECORDS_AHEAD]) -> usize {
    let mut from = 0usize;
    for to in places.iter_mut() {
        let Some(front) = bytes.get(from..) else {
            break;
        };
        if front.len() < FRONT_LEN {
            break;
        }
        *to = place_ahead(front);
        from = from.saturating_add(word(front, 0) as usize);
    }
    from
}

/// A word of what is kept at this place, 0 where there is no such place.
fn glance(keys: &[KeyState], at: usize) -> u64 {
    if at >= keys.len() {
        return 0;
    }
    keys[at].word()
}

/// The words of what is kept at these places together. The loop is short, so that many of its reads
/// wait at the same time.
fn glance_at(keys: &[KeyState], places: &[usize; RECORDS_AHEAD]) -> u64 {
    let mut seen = 0u64;
    for at in places.iter() {
        seen ^= glance(keys, *at);
    }
    seen
}

/// Reads a word of what is kept of each key that the records at the front of these bytes seem to
/// write, and answers how many bytes these records seem to have, and the words together, which say
/// nothing. The bytes may be any.
pub(crate) fn glance_ahead(keys: &[KeyState], bytes: &[u8]) -> (usize, u64) {
    let mut places = [0usize; RECORDS_AHEAD];
    let len = find_ahead(bytes, &mut places);
    (len, glance_at(keys, &places))
}
