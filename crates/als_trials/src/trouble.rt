use als_sim::Failure;
use hex::FromHexError;
use std::alloc::{AllocError, AllocFailed, Global};
use std::str::Utf8Error;

/// Why a trial does not end as its file says.
#[derive(Drop)]
pub enum Trouble {
    /// It ended otherwise: this is said of it.
    Differs(String),
    /// The file is none of trials.
    NoTrial,
    /// An allocation of the trial itself failed.
    Memory,
}

impl Trouble {
    /// A line printed something else than is wanted.
    pub fn at(alloc: Global, line: &str, printed: &str) -> Trouble {
        match format!(in alloc; "{line}: {printed}") {
            Ok(text) => Trouble::Differs(text),
            Err(_) => Trouble::Memory,
        }
    }
}

impl From<AllocError> for Trouble {
    fn from(_e: AllocError) -> Trouble {
        Trouble::Memory
    }
}

impl<T: Drop> From<AllocFailed<T>> for Trouble {
    fn from(_e: AllocFailed<T>) -> Trouble {
        Trouble::Memory
    }
}

impl From<Utf8Error> for Trouble {
    fn from(_e: Utf8Error) -> Trouble {
        Trouble::NoTrial
    }
}

impl From<FromHexError> for Trouble {
    fn from(e: FromHexError) -> Trouble {
        match e {
            FromHexError::OutOfMemory => Trouble::Memory,
            _ => Trouble::NoTrial,
        }
    }
}

impl From<Failure> for Trouble {
    fn from(failure: Failure) -> Trouble {
        match failure {
            Failure::BadLine(_) => Trouble::NoTrial,
            // Output goes to memory, so it fails where memory does.
            Failure::Memory | Failure::Stream => Trouble::Memory,
        }
    }
}
