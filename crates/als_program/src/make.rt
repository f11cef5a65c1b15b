use crate::failure::Failure;
use als_script::{Words, is_command, line_number, number_past, parse_record};
use als_text::LogText;
use std::alloc::Global;
use std::io::Write;
use std::str;

/// `als make`: a line `pages N` and record lines to a log text, its bytes or lines of hexadecimal
/// digits. Nothing is written before all lines are read.
pub fn make<W: Write>(
    alloc: Global,
    script: &[u8],
    hex: bool,
    output: &mut W,
) -> Result<(), Failure> {
    let text = log_text(alloc, script)?;
    if hex {
        write_hex(alloc, &text, output)?;
    } else {
        output.write_all(text.bytes())?;
    }
    Ok(())
}

/// The log text of all lines.
fn log_text(alloc: Global, script: &[u8]) -> Result<LogText, Failure> {
    let mut made: Option<LogText> = None;
    for (index, line) in script.split(|b| *b == b'\n').enumerate() {
        if is_command(line) {
            let number = line_number(index);
            let line = str::from_utf8(line).map_err(|_| Failure::BadLine(number))?;
            match &mut made {
                None => {
                    let pages = pages(line).ok_or(Failure::BadLine(number))?;
                    made = Some(LogText::new(alloc, pages)?);
                }
                Some(text) => {
                    let record = parse_record(line).ok_or(Failure::BadLine(number))?;
                    text.push(&record)?;
                }
            }
        }
    }
    made.ok_or(Failure::BadLine(number_past(script)))
}

/// `pages N`.
fn pages(line: &str) -> Option<u32> {
    let mut words = Words::of(line);
    if words.next()? != "pages" {
        return None;
    }
    let pages = words.number()?;
    words.ending(pages)
}

/// The header and each record on a line, in lower case hexadecimal.
fn write_hex<W: Write>(alloc: Global, text: &LogText, output: &mut W) -> Result<(), Failure> {
    let mut start = 0;
    for end in text.ends() {
        if let Some(part) = text.bytes().get(start..*end) {
            writeln!(output, "{}", hex::encode(alloc, part)?)?;
        }
        start = *end;
    }
    Ok(())
}
