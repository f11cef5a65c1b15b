use als_record::Lsn;

/// Where each record of the text stands, and last the offset after them.
pub const OFFSETS: [usize; 9] = [16, 52, 80, 116, 153, 181, 224, 266, 294];

/// Four records of two transactions, the second of which does not end: `aa` at 0/0, its commit,
/// `bb` at 0/1, `cc` at 0/0. Behind them, from 153 on, stands the tail that a takeover appends. The
/// first byte is that at 16.
pub const TEXT: [u8; 278] = [
    0, 0, 0, 36, 1, 0, 0, 0, 0, 0, 0, 0, 0, 0, 0, 16, 0, 0, 0, 0, 0, 0, 0, 0, 0, 0, 0, 1, 0, 0, 0,
    0, 0, 255, 1, 170, 0, 0, 0, 28, 3, 0, 0, 0, 0, 0, 0, 0, 0, 0, 0, 52, 0, 0, 0, 0, 0, 0, 0, 16,
    0, 0, 0, 1, 0, 0, 0, 36, 1, 0, 0, 0, 0, 0, 0, 0, 0, 0, 0, 80, 0, 0, 0, 0, 0, 0, 0, 0, 0, 0, 0,
    2, 0, 0, 0, 0, 1, 255, 1, 187, 0, 0, 0, 37, 1, 0, 0, 0, 0, 0, 0, 0, 0, 0, 0, 116, 0, 0, 0, 0,
    0, 0, 0, 80, 0, 0, 0, 2, 0, 0, 0, 0, 0, 1, 1, 170, 204, 0, 0, 0, 28, 5, 0, 0, 0, 0, 0, 0, 0, 0,
    0, 0, 153, 0, 0, 0, 0, 0, 0, 0, 52, 0, 0, 0, 1, 0, 0, 0, 43, 2, 0, 0, 0, 0, 0, 0, 0, 0, 0, 0,
    181, 0, 0, 0, 0, 0, 0, 0, 116, 0, 0, 0, 2, 0, 0, 0, 0, 0, 0, 0, 80, 0, 0, 0, 0, 0, 1, 170, 0,
    0, 0, 42, 2, 0, 0, 0, 0, 0, 0, 0, 0, 0, 0, 224, 0, 0, 0, 0, 0, 0, 0, 181, 0, 0, 0, 2, 0, 0, 0,
    0, 0, 0, 0, 0, 0, 0, 0, 0, 1, 255, 0, 0, 0, 28, 5, 0, 0, 0, 0, 0, 0, 0, 0, 0, 1, 10, 0, 0, 0,
    0, 0, 0, 0, 224, 0, 0, 0, 2,
];

/// The bytes of the record at an offset.
pub fn record_bytes(index: usize) -> Option<&'static [u8]> {
    let from = OFFSETS.get(index)?.saturating_sub(16);
    let to = OFFSETS.get(index.saturating_add(1))?.saturating_sub(16);
    TEXT.get(from..to)
}

/// The block of page 0 that holds all of the log below an offset.
pub fn page_block(end: Lsn) -> [u8; 512] {
    let (lsn, first, second) = match end.0 {
        16 => return [0; 512],
        52 | 80 => (16, [2, 170], [0, 0]),
        116 => (80, [2, 170], [2, 187]),
        153 | 181 => (116, [2, 204], [2, 187]),
        214 => (144, [2, 170], [0, 0]),
        224 => (181, [2, 170], [2, 187]),
        _ => (224, [2, 170], [0, 0]),
    };
    let mut block = [0; 512];
    block[7] = lsn;
    block[13] = 1;
    block[32] = first[0];
    block[33] = first[1];
    block[64] = second[0];
    block[65] = second[1];
    block
}

/// Six updates by one transaction, of 0/0 to 0/5. The sixth has a value of two bytes, and so the
/// log and its tail together have 513 bytes.
pub const SIX_LONG: [u8; 217] = [
    0, 0, 0, 36, 1, 0, 0, 0, 0, 0, 0, 0, 0, 0, 0, 16, 0, 0, 0, 0, 0, 0, 0, 0, 0, 0, 0, 1, 0, 0, 0,
    0, 0, 255, 1, 160, 0, 0, 0, 36, 1, 0, 0, 0, 0, 0, 0, 0, 0, 0, 0, 52, 0, 0, 0, 0, 0, 0, 0, 16,
    0, 0, 0, 1, 0, 0, 0, 0, 1, 255, 1, 161, 0, 0, 0, 36, 1, 0, 0, 0, 0, 0, 0, 0, 0, 0, 0, 88, 0, 0,
    0, 0, 0, 0, 0, 52, 0, 0, 0, 1, 0, 0, 0, 0, 2, 255, 1, 162, 0, 0, 0, 36, 1, 0, 0, 0, 0, 0, 0, 0,
    0, 0, 0, 124, 0, 0, 0, 0, 0, 0, 0, 88, 0, 0, 0, 1, 0, 0, 0, 0, 3, 255, 1, 163, 0, 0, 0, 36, 1,
    0, 0, 0, 0, 0, 0, 0, 0, 0, 0, 160, 0, 0, 0, 0, 0, 0, 0, 124, 0, 0, 0, 1, 0, 0, 0, 0, 4, 255, 1,
    164, 0, 0, 0, 37, 1, 0, 0, 0, 0, 0, 0, 0, 0, 0, 0, 196, 0, 0, 0, 0, 0, 0, 0, 160, 0, 0, 0, 1,
    0, 0, 0, 0, 5, 255, 2, 165, 166,
];
