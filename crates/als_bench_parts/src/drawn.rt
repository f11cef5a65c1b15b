use als_record::{Image, Key, SLOT_COUNT, Value};

/// Pages of the database.
pub const PAGES: u32 = 4096;

/// A number that looks like a random one, the same for each number in each run.
pub fn mixed(number: u64) -> u64 {
    let mut x = number.wrapping_add(1).wrapping_mul(0x9E37_79B9_7F4A_7C15);
    x ^= x >> 32;
    x = x.wrapping_mul(0xD6E8_FEB8_6659_FD93);
    x ^ x >> 32
}

/// A key of the database.
pub fn drawn_key(number: u64) -> Key {
    let drawn = mixed(number);
    Key {
        page: (drawn >> 32) as u32 % PAGES,
        slot: (drawn % SLOT_COUNT as u64) as u8,
    }
}

/// A value of eight bytes.
pub fn drawn_image(number: u64) -> Image {
    Value::try_from(mixed(number).to_be_bytes().as_slice()).ok()
}
