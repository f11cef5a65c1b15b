/// A log of a database of four pages: an update of 0/0 at 16 and a commit at 52 of transaction 1, and
/// updates of 0/1 at 80 and of 0/0 at 116 of transaction 2. It ends at 153.
pub const LOG: [u8; 153] = [
    0x41, 0x4c, 0x53, 0x4c, 0x4f, 0x47, 0x30, 0x31, 0, 0, 0, 4, 0, 0, 0, 0, //
    0, 0, 0, 0x24, 1, 0, 0, 0, 0, 0, 0, 0, 0, 0, 0, 0x10, 0, 0, 0, 0, 0, 0, 0, 0, 0, 0, 0, 1, 0, 0,
    0, 0, 0, 0xff, 1, 0xaa, //
    0, 0, 0, 0x1c, 3, 0, 0, 0, 0, 0, 0, 0, 0, 0, 0, 0x34, 0, 0, 0, 0, 0, 0, 0, 0x10, 0, 0, 0, 1, //
    0, 0, 0, 0x24, 1, 0, 0, 0, 0, 0, 0, 0, 0, 0, 0, 0x50, 0, 0, 0, 0, 0, 0, 0, 0, 0, 0, 0, 2, 0, 0,
    0, 0, 1, 0xff, 1, 0xbb, //
    0, 0, 0, 0x25, 1, 0, 0, 0, 0, 0, 0, 0, 0, 0, 0, 0x74, 0, 0, 0, 0, 0, 0, 0, 0x50, 0, 0, 0, 2, 0,
    0, 0, 0, 0, 1, 1, 0xaa, 0xcc,
];

/// The same with another type of the record at 80, which is none.
pub fn damaged() -> [u8; 153] {
    let mut text = LOG;
    text[84] = 9;
    text
}
