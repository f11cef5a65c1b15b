/// Whether a line is a command: empty lines, and comments that begin with `#`, are none.
pub fn is_command(line: &[u8]) -> bool {
    !matches!(line, [] | [b'#', ..])
}

/// The number, counted from 1, of a line by its index.
pub fn line_number(index: usize) -> u64 {
    (index as u64).saturating_add(1)
}

/// The number of the line that would come behind the last. What stands behind the last line's end
/// is a line unless it is empty.
pub fn number_past(text: &[u8]) -> u64 {
    let pieces = text.split(|b| *b == b'\n').count();
    match text {
        [] => 1,
        [.., b'\n'] => pieces as u64,
        _ => line_number(pieces),
    }
}
