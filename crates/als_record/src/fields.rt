ghost use Rattle.std.specs.Prelude.{◌≡◌, ◌+◌, ◌≤◌, length, take, drop};
ghost use Rattle.als_record.specs.Reading.{half_at, word_at, long_at, key_at, is_length_byte};
ghost use Rattle.als_record.specs.Reading.{len_of_byte};

use crate::key::Key;
use crate::limits::VALUE_LIMIT;

/// The number in two bytes at a place.
#[inline]
pub(crate) fn half(bytes: &[u8], at: usize) -> u16
    requires { at + 2 ≤ length bytes.now }
    ensures { result ≡ half_at at bytes.now }
{
    let (_, rest) = bytes.split_at(at);
    let (field, _) = rest.split_at(2);
    u16::from_be_bytes([field[0], field[1]])
}

/// The number in four bytes at a place.
#[inline]
pub(crate) fn word(bytes: &[u8], at: usize) -> u32
    requires { at + 4 ≤ length bytes.now }
    ensures { result ≡ word_at at bytes.now }
{
    let (_, rest) = bytes.split_at(at);
    let (field, _) = rest.split_at(4);
    u32::from_be_bytes([field[0], field[1], field[2], field[3]])
}

/// The number in eight bytes at a place.
#[inline]
pub(crate) fn long(bytes: &[u8], at: usize) -> u64
    requires { at + 8 ≤ length bytes.now }
    ensures { result ≡ long_at at bytes.now }
{
    let (_, rest) = bytes.split_at(at);
    let (field, _) = rest.split_at(8);
    u64::from_be_bytes([
        field[0], field[1], field[2], field[3], field[4], field[5], field[6], field[7],
    ])
}

/// The key at a place.
#[inline]
pub(crate) fn key(bytes: &[u8], at: usize) -> Key
    requires { at + 5 ≤ length bytes.now }
    ensures { result ≡ key_at at bytes.now }
{
    Key {
        page: word(bytes, at),
        slot: bytes[at + 4],
    }
}

/// Is it an image's length byte: 255 for none, or up to 31?
#[inline]
pub(crate) fn is_length(byte: u8) -> bool
    ensures { result ≡ is_length_byte byte }
{
    byte as usize <= VALUE_LIMIT || byte == 255
}

/// How many bytes follow for a length byte.
#[inline]
pub(crate) fn value_len(byte: u8) -> usize
    ensures { result ≡ len_of_byte byte }
{
    if byte == 255 { 0 } else { byte as usize }
}
