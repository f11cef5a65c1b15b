use std::io;
use std::time::Duration;

/// Prints a figure, of a job that takes a log whole or in pieces of so many bytes.
pub fn tell<R: Print>(
    rt: &R,
    name: &str,
    piece: Option<usize>,
    bytes: usize,
    records: u64,
    took: Duration,
) -> io::Result<()> {
    let nanos = u64::try_from(took.as_nanos()).unwrap_or(u64::MAX).max(1);
    let micros = (nanos / 1000).max(1);
    let rate = records.saturating_mul(1_000_000) / micros;
    let each = nanos / records.max(1);
    let speed = bytes as u64 / micros;
    match piece {
        Some(piece) => print!(rt; "{name} in pieces of {piece}: ")?,
        None => print!(rt; "{name}: ")?,
    }
    println!(rt; "{records} records, {rate} records/s, {each} ns each, {speed} MB/s")
}
