use crate::words::Words;
use std::alloc::{AllocError, Global};

/// A line that stops the standby and begins it again over what its devices keep.
#[derive(Clone, Copy)]
pub enum CrashLine<'a> {
    /// `crash old`: each block keeps what was synced last.
    Old,
    /// `crash new`: each block keeps what was written last.
    New,
    /// `crash N N ..`: which of its candidates a block keeps, in turn for each block that has more
    /// than one.
    Picks(Words<'a>),
}

impl<'a> CrashLine<'a> {
    /// What a line makes of the devices; None where it is no such line.
    pub fn parse(line: &'a str) -> Option<CrashLine<'a>> {
        let mut words = Words::of(line);
        if words.next()? != "crash" {
            return None;
        }
        let picks = words;
        match words.next()? {
            "old" => words.ending(CrashLine::Old),
            "new" => words.ending(CrashLine::New),
            _ => {
                if !are_picks(picks) {
                    return None;
                }
                Some(CrashLine::Picks(picks))
            }
        }
    }

    /// The picks for devices of so many blocks together: a candidate past the last is the last, and
    /// where no pick is left the first.
    pub fn picks(self, alloc: Global, blocks: usize) -> Result<Vec<u8>, AllocError> {
        match self {
            CrashLine::Old => Ok(Vec::new(alloc)),
            CrashLine::New => Vec::from_elem(alloc, u8::MAX, blocks),
            CrashLine::Picks(words) => numbers(alloc, words),
        }
    }
}

/// Whether each word that is left is a number from 0 to 255.
fn are_picks(words: Words) -> bool {
    let mut words = words;
    for _ in 0..words.count() {
        let pick: Option<u8> = words.number();
        if pick.is_none() {
            return false;
        }
    }
    words.is_at_end()
}

/// The numbers from 0 to 255 that are left, up to the first word that is none.
fn numbers(alloc: Global, words: Words) -> Result<Vec<u8>, AllocError> {
    let mut words = words;
    let mut numbers = Vec::new(alloc);
    for _ in 0..words.count() {
        let Some(number) = words.number() else {
            break;
        };
        numbers.push(number)?;
    }
    Ok(numbers)
}
