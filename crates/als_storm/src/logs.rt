use crate::trouble::Trouble;
use als_sample_logs::{FIRST, Primary};
use std::alloc::Global;

/// Pages of the database. Redo beside a session begins at 64 changes a page: at 1,024.
pub const PAGES: u32 = 16;

/// The log bytes of a frame. It has some 170 changes.
pub const FRAME: usize = 8192;

/// A primary's log of at least so many bytes, from its header on. Each of its 16 open transactions
/// writes a page of its own.
pub fn log(alloc: Global, bytes: usize) -> Result<Vec<u8>, Trouble> {
    match Primary::new(alloc, PAGES, bytes, PAGES).and_then(|primary| primary.write(bytes)) {
        Ok(text) => Ok(text),
        Err(_) => Err(Trouble::Memory),
    }
}

/// What a shipper of a log sends from an offset on.
pub fn frames(alloc: Global, text: &[u8], from: u64) -> Result<Vec<u8>, Trouble> {
    match als_sample_logs::frames(alloc, text, (from as usize).max(FIRST), FRAME) {
        Ok(sent) => Ok(sent),
        Err(_) => Err(Trouble::Memory),
    }
}
