use crate::limits::VALUE_LIMIT;
use arrayvec::ArrayVec;

/// The value of a key: up to 31 bytes.
pub type Value = ArrayVec<u8, VALUE_LIMIT>;

/// What a key has: a value, or nothing.
pub type Image = Option<Value>;
