use crate::devices::write_out;
use als_disk::{BlockDisk, MemDisk};
use als_engine::{Engine, Fault};
use als_sample_logs::FIRST;
use std::io;
use std::rt::Clock;
use std::sync::Wait;
use std::time::{Duration, Instant};

/// How many bytes are fed before they are written and synced, and redone.
const WAITING: usize = 1 << 20;

/// The bytes of a piece.
const PIECE: usize = 65_536;

/// How long a feed of a log takes in pieces of 64 KiB. The log's writing and redo have their turns in
/// between, and their time is not counted.
pub fn feed_all<R: Clock + Wait>(
    rt: &R,
    engine: Engine<MemDisk>,
    text: &[u8],
) -> io::Result<Result<Duration, Fault>> {
    let mut engine = engine;
    let answer = feed_parts(rt, &mut engine, text);
    drop(engine.into_disks(rt));
    answer
}

/// Feeds parts of the log, each of about as many bytes as may wait.
fn feed_parts<R: Clock>(
    rt: &R,
    engine: &mut Engine<MemDisk>,
    text: &[u8],
) -> io::Result<Result<Duration, Fault>> {
    let mut took = Duration::ZERO;
    for part in text.get(FIRST..).unwrap_or(&[]).chunks(WAITING) {
        let start = Instant::now(rt)?;
        let answer = feed_part(engine, part);
        took = took.saturating_add(start.elapsed(rt)?);
        let answer = match answer {
            Ok(()) => write_out(engine),
            Err(fault) => Err(fault),
        };
        if let Err(fault) = answer {
            return Ok(Err(fault));
        }
    }
    Ok(Ok(took))
}

/// Feeds a part in pieces.
fn feed_part<D: BlockDisk + Drop>(engine: &mut Engine<D>, part: &[u8]) -> Result<(), Fault> {
    for bytes in part.chunks(PIECE) {
        match engine.feed(bytes) {
            Ok(_) => {}
            Err(refusal) => return Err(refusal.fault),
        }
    }
    Ok(())
}
