use crate::reading::{decode_all, judge_all, judge_pieces, receive_all, view_all};
use als_sample_logs::{PAGES, Primary, tell};
use std::io;
use std::rt::Clock;
use std::time::Instant;

/// Measures each job over a log of so many MB with 16 open transactions, and with 1 and with 256.
pub fn measure_all<R: Print + Clock + AllocGlobal>(rt: &R, megabytes: usize) -> io::Result<()> {
    let bytes = megabytes.saturating_mul(1 << 20);
    for open in [16, 1, 256] {
        let written = Primary::new(rt.alloc(), open, bytes, PAGES);
        let text = match written.and_then(|primary| primary.write(bytes)) {
            Ok(text) => text,
            Err(fault) => return println!(rt; "{fault}"),
        };
        println!(rt; "{megabytes} MB, {open} open transactions")?;
        measure_log(rt, text.as_slice())?;
    }
    Ok(())
}

/// Measures each job over a log.
fn measure_log<R: Print + Clock + AllocGlobal>(rt: &R, text: &[u8]) -> io::Result<()> {
    let alloc = rt.alloc();
    measure(rt, "view", None, text, || view_all(text))?;
    measure(rt, "decode", None, text, || decode_all(alloc, text))?;
    measure(
        rt,
        "decode and judge, not looking ahead",
        None,
        text,
        || judge_all(alloc, text),
    )?;
    measure(
        rt,
        "decode and judge",
        Some(65_536),
        text,
        || judge_pieces(alloc, text, 65_536),
    )?;
    for piece in [100, 65_536, 1_000_000] {
        measure(
            rt,
            "receive",
            Some(piece),
            text,
            || receive_all(alloc, text, piece),
        )?;
    }
    Ok(())
}

/// Tells how long a job took, which answers how many records it went over.
fn measure<R: Print + Clock, F: FnOnce() -> u64>(
    rt: &R,
    name: &str,
    piece: Option<usize>,
    text: &[u8],
    job: F,
) -> io::Result<()>
    requires { F.IsAlwaysCallable job }
{
    let start = Instant::now(rt)?;
    let records = job();
    tell(rt, name, piece, text.len(), records, start.elapsed(rt)?)
}
