use std::alloc::{AllocError, AllocFailed};
use std::io;

/// Why a storm ends.
#[derive(Drop)]
pub enum Trouble {
    /// Something that is promised does not hold.
    Lost(&'static str),
    /// An allocation failed.
    Memory,
    /// Standard output fails.
    Stream(io::Error),
}

impl From<AllocError> for Trouble {
    fn from(_e: AllocError) -> Trouble {
        Trouble::Memory
    }
}

impl<T: Drop> From<AllocFailed<T>> for Trouble {
    fn from(_e: AllocFailed<T>) -> Trouble {
        Trouble::Memory
    }
}

impl From<io::Error> for Trouble {
    fn from(e: io::Error) -> Trouble {
        Trouble::Stream(e)
    }
}
