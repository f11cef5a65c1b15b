use crate::history::History;

/// A log's records, and the bytes of its text that memory has.
#[derive(Clone, Copy)]
pub(crate) struct Source<'a> {
    pub(crate) history: &'a History,
    pub(crate) pages: u32,
    /// From the base on.
    pub(crate) bytes: &'a [u8],
    /// The offset of the first of them, at a block's beginning.
    pub(crate) base: u64,
}
