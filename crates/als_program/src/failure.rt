ghost use Rattle.std.specs.Prelude.{◌≡◌};
ghost use Rattle.als_program.specs.Status.{status_of};
ghost use Rattle.als_program.specs.declared.failure.Failure.TheVariants.{Memory};

use crate::input_fault::InputFault;
use crate::refusal::Refusal;
use als_fault::FaultKind;
use als_sim::Failure as SimFailure;
use std::alloc::{AllocError, AllocFailed};
use std::io;
use std::io::{ErrorKind, Write};
use thiserror::Error;

/// Why the program ends without having done what it was asked. Its text goes to standard error.
#[derive(Debug, Drop, Error)]
pub enum Failure {
    /// The words of the command line are none that the program knows.
    #[error("{0}")]
    Usage(String),
    /// The line of this number, counted from 1, is none of the script language, or it is missing.
    #[error("line {0}: bad line")]
    BadLine(u64),
    /// A log text would go to a terminal.
    #[error("als: a log text is bytes, which no terminal shows: write it to a file, or ask for --hex")]
    BytesOnTerminal,
    /// The log text of a file or of a node would go to a terminal.
    #[error("als: a log text is bytes, which no terminal shows: write it to a file")]
    TextOnTerminal,
    /// An allocation failed.
    #[error("als: refused {kind}", kind = FaultKind::Memory)]
    Memory,
    /// Standard input has more bytes than the program takes.
    #[error("als: refused {kind}", kind = FaultKind::Stream)]
    TooLong,
    /// Standard input fails.
    #[error("als: refused {kind}", kind = FaultKind::Stream)]
    Unreadable,
    /// Standard output fails.
    #[error("als: refused {kind}", kind = FaultKind::Stream)]
    Stream,
    /// A command is refused.
    #[error("als: refused {0}")]
    Refused(FaultKind),
}

impl Failure {
    /// The exit status: 2 for what the caller wrote, 3 for a refusal.
    pub fn status(&self) -> u8
        ensures { result ≡ status_of self.now }
    {
        match self {
            Failure::Usage(_)
            | Failure::BadLine(_)
            | Failure::BytesOnTerminal
            | Failure::TextOnTerminal => 2,
            Failure::Memory
            | Failure::TooLong
            | Failure::Unreadable
            | Failure::Stream
            | Failure::Refused(_) => 3,
        }
    }

    /// Writes the failure's text, and answers its status. Where not even that can be written, the
    /// status has to do.
    pub fn report<W: Write>(&self, errors: &mut W) -> u8
        ensures { result ≡ status_of self.now }
    {
        let written = match self {
            Failure::Usage(text) => write!(errors, "{text}"),
            _ => writeln!(errors, "{self}"),
        };
        let _ = written.and_then(|_| errors.flush());
        self.status()
    }
}

impl From<AllocError> for Failure {
    ghost from_gives = { λ _ e. e ≡ Memory };

    fn from(_e: AllocError) -> Failure {
        Failure::Memory
    }
}

impl<T: Drop> From<AllocFailed<T>> for Failure {
    ghost from_gives = { λ _ e. e ≡ Memory };

    fn from(_e: AllocFailed<T>) -> Failure {
        Failure::Memory
    }
}

impl From<io::Error> for Failure {
    fn from(e: io::Error) -> Failure {
        match e.kind() {
            ErrorKind::OutOfMemory => Failure::Memory,
            _ => Failure::Stream,
        }
    }
}

impl From<Refusal> for Failure {
    fn from(refusal: Refusal) -> Failure {
        Failure::Refused(refusal.kind)
    }
}

impl From<InputFault> for Failure {
    fn from(fault: InputFault) -> Failure {
        match fault {
            InputFault::Memory => Failure::Memory,
            InputFault::TooLong => Failure::TooLong,
            InputFault::Unreadable => Failure::Unreadable,
        }
    }
}

impl From<SimFailure> for Failure {
    fn from(failure: SimFailure) -> Failure {
        match failure {
            SimFailure::BadLine(number) => Failure::BadLine(number),
            SimFailure::Memory => Failure::Memory,
            SimFailure::Stream => Failure::Stream,
        }
    }
}
