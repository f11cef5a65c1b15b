use crate::words::Words;

/// A line of a reader: `read P S`.
#[derive(Clone, Copy)]
pub struct ReadLine {
    pub page: u32,
    pub slot: u8,
}

impl ReadLine {
    /// What a line asks for; None where it is no such line.
    pub fn parse(line: &str) -> Option<ReadLine> {
        let mut words = Words::of(line);
        if words.next()? != "read" {
            return None;
        }
        let read = ReadLine {
            page: words.number()?,
            slot: words.number()?,
        };
        words.ending(read)
    }
}
