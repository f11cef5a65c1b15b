/// A log sequence number: the byte offset of a record's first byte in the log text. The first
/// record stands at 16, behind the log's header; 0 means none.
#[derive(Clone, Copy, Debug, Default, PartialEq, Eq, PartialOrd, Ord)]
pub struct Lsn(pub u64);
