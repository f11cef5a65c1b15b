use std::alloc::Global;
use std::io;
use std::io::{BufRead, BufReader, Read};

/// The most bytes of a line, without its end: 65,536.
const LINE_LIMIT: usize = 65_536;

/// A line of the input, without its end.
#[derive(Clone, Copy, PartialEq, Eq)]
pub(crate) enum InputLine {
    /// It is in the buffer.
    Whole,
    /// It has more bytes than a line may have, and was skipped.
    TooLong,
    /// The input has ended.
    End,
}

/// Reads the next line into the buffer, which is emptied first.
pub(crate) fn next_line<I: Read>(
    input: &mut BufReader<I>,
    line: &mut Vec<u8>,
) -> io::Result<InputLine> {
    line.clear();
    let mut limited = (&mut *input).take(LINE_LIMIT as u64 + 1);
    let count = limited.read_until(b'\n', line)?;
    if count == 0 {
        return Ok(InputLine::End);
    }
    if line.last() == Some(&b'\n') {
        line.pop();
        return Ok(InputLine::Whole);
    }
    if line.len() > LINE_LIMIT {
        input.skip_until(b'\n')?;
        return Ok(InputLine::TooLong);
    }
    // The last line may lack its end.
    Ok(InputLine::Whole)
}
