use std::fmt;
use std::fmt::{Formatter, Write};

const IMAGE: &str =
    "1 to 254 bytes in lower case hexadecimal, `.` for the empty value, or `-` for absent";

/// What stands at a word's place in a good line.
#[derive(Clone, Copy, PartialEq)]
pub enum Wanted {
    /// The first word of a line that the language has.
    Command,
    /// This word.
    Word(&'static str),
    /// A decimal number that fits so many bits, behind a label that may be empty.
    Number { label: &'static str, bits: u32 },
    /// An image.
    Image,
    /// Nothing: the line ends before it.
    End,
}

impl fmt::Display for Wanted {
    fn fmt<W: Write>(&self, f: &mut Formatter<W>) -> Result<(), fmt::Error> {
        match self {
            Wanted::Command => f.write_str("the first word of a line that --help lists"),
            Wanted::Word(word) => write!(f, "`{word}`"),
            Wanted::Number { label, bits } => {
                if !label.is_empty() {
                    write!(f, "`{label}` and ")?;
                }
                write!(f, "a decimal number of at most {bits} bits")
            }
            Wanted::Image => f.write_str(IMAGE),
            Wanted::End => f.write_str("the end of the line"),
        }
    }
}
