use als_sample_logs::Primary;
use std::alloc::Global;

/// Pages of the database. Redo beside a session begins at 64 changes a page: at 1,024.
pub const PAGES: u32 = 16;

/// The log bytes of a frame. It has some 170 changes.
pub const FRAME: usize = 8192;

/// The log has at least this many bytes: 20 frames.
const LENGTH: usize = 20 * FRAME;

/// A primary's log, from its header on. Each of its 16 open transactions writes a page of its own.
/// `None`: allocation failed.
pub fn log(alloc: Global) -> Option<Vec<u8>> {
    let primary = Primary::new(alloc, PAGES, LENGTH, PAGES).ok()?;
    primary.write(LENGTH).ok()
}

/// What a shipper of a log sends from an offset on. `None`: allocation failed.
pub fn frames(alloc: Global, text: &[u8], from: usize) -> Option<Vec<u8>> {
    als_sample_logs::frames(alloc, text, from, FRAME).ok()
}
