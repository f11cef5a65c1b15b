ghost use Rattle.std.specs.Prelude.{◌≡◌, ◌⊎◌};
ghost use Rattle.als_sim.specs.declared.failure.Failure.TheVariants.{Memory as OutOfMemory};
ghost use Rattle.als_sim.specs.declared.failure.Failure.TheVariants.{Stream as StreamFailed};

use std::alloc::{AllocError, AllocFailed};
use std::io;
use std::io::ErrorKind;

/// Why a script does not run to its end.
#[derive(Clone, Copy, Debug, PartialEq, Eq)]
pub enum Failure {
    /// The line of this number, counted from 1, is none of the script language, or it is missing.
    BadLine(u64),
    /// An allocation failed.
    Memory,
    /// The output fails.
    Stream,
}

impl From<AllocError> for Failure {
    ghost from_gives = { λ _ e. e ≡ OutOfMemory };

    fn from(_e: AllocError) -> Failure {
        Failure::Memory
    }
}

impl<T: Drop> From<AllocFailed<T>> for Failure {
    ghost from_gives = { λ _ e. e ≡ OutOfMemory };

    fn from(_e: AllocFailed<T>) -> Failure {
        Failure::Memory
    }
}

impl From<io::Error> for Failure {
    ghost from_gives = { λ _ e. (e ≡ OutOfMemory) ⊎ (e ≡ StreamFailed) };

    fn from(e: io::Error) -> Failure {
        match e.kind() {
            ErrorKind::OutOfMemory => Failure::Memory,
            _ => Failure::Stream,
        }
    }
}
