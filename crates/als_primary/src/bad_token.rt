/// Why a token's file is refused.
#[derive(Clone, Copy, Debug, PartialEq, Eq)]
pub enum BadToken {
    /// It cannot be opened or read.
    Unreadable,
    /// Others than its owner may read or write it.
    Shared,
    /// It has fewer than 16 bytes.
    Short,
    /// It has more than 4,096 bytes.
    Long,
    /// It has a byte that no request can bring: a blank, a line end, or one that is not printed.
    Unsendable,
    /// There is no memory for it.
    Memory,
}
