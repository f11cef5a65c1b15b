use std::io;
use std::io::ErrorKind;

/// Why standard input is not taken.
#[derive(Clone, Copy, Debug, PartialEq, Eq)]
pub enum InputFault {
    /// There was no memory for its bytes.
    Memory,
    /// It has more bytes than the program takes.
    TooLong,
    /// It fails.
    Unreadable,
}

impl From<io::Error> for InputFault {
    fn from(e: io::Error) -> InputFault {
        match e.kind() {
            ErrorKind::OutOfMemory => InputFault::Memory,
            _ => InputFault::Unreadable,
        }
    }
}
