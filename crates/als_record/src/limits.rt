use crate::lsn::Lsn;

/// Where the first record of a log stands: behind the log's header, which has so many bytes.
pub const FIRST_LSN: Lsn = Lsn(16);

/// The length of a record's head in bytes: what stands in front of its body, and the whole of the
/// shortest record.
pub const HEAD_LEN: usize = 28;

/// The length of the longest record in bytes: an end_chkpt with all rows that it may have.
pub const RECORD_LIMIT: usize = 54_560;

/// The slots of a page: 0 to 14.
pub const SLOT_COUNT: usize = 15;

/// The bytes of a device's block, and so of a page's.
pub const BLOCK_LEN: usize = 512;

/// The bytes of the longest value.
pub const VALUE_LIMIT: usize = 31;

/// The transactions of a log that may be unended at once.
pub const TRANSACTION_LIMIT: usize = 256;

/// The pages of the largest database.
pub const PAGE_LIMIT: usize = 4096;
