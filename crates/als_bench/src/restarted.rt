use crate::checkpointed::{publish, write_blocks};
use crate::devices::{Size, config, in_memory, standby};
use crate::redone::{flush_rows, hold, redo_some};
use als_disk::{BlockDisk, MemDisk};
use als_engine::{Engine, Fault};
use als_sample_logs::FIRST;
use std::io;
use std::rt::Clock;
use std::sync::Wait;
use std::time::{Duration, Instant};

/// A checkpoint near the end has so many bytes of the log behind it.
const BEHIND: usize = 1 << 20;

/// What a restart took.
#[derive(Clone, Copy)]
struct Cost {
    /// The changes that wait for redo once it is open.
    waiting: u64,
    opened: Duration,
    redone: Duration,
}

/// Stops a standby that holds a log, and begins it again over devices in memory: without a
/// checkpoint, so that all is redone, and with one near the end.
pub fn restart_all<R: Print + Clock + AllocGlobal + Wait>(rt: &R, text: &[u8]) -> io::Result<()> {
    restart_from(rt, text, text.len())?;
    restart_from(rt, text, text.len().saturating_sub(BEHIND))
}

/// The same with a checkpoint at about this offset, and none at the log's end.
fn restart_from<R: Print + Clock + AllocGlobal + Wait>(
    rt: &R,
    text: &[u8],
    at: usize,
) -> io::Result<()> {
    match standby(
        rt,
        rt.alloc(),
        in_memory(rt.alloc(), text, Size::LARGEST),
        Size::LARGEST,
    ) {
        Ok(engine) => restart_engine(rt, engine, text, at),
        Err(fault) => println!(rt; "{fault}"),
    }
}

fn restart_engine<R: Print + Clock + AllocGlobal + Wait>(
    rt: &R,
    engine: Engine<MemDisk>,
    text: &[u8],
    at: usize,
) -> io::Result<()> {
    let mut engine = engine;
    let held = hold_with_checkpoint(&mut engine, text, at);
    let disks = engine.into_disks(rt);
    if let Err(fault) = held {
        return println!(rt; "{fault}");
    }
    let start = Instant::now(rt)?;
    match Engine::open(rt.alloc(), rt, disks, config(Size::LARGEST)) {
        Ok((engine, _)) => {
            let opened = start.elapsed(rt)?;
            redo_engine(rt, engine, opened, text.len(), at)
        }
        Err(refused) => println!(rt; "{}", refused.fault),
    }
}

/// Feeds a log, redoes and forces all of it. At an offset before its end a checkpoint is taken.
fn hold_with_checkpoint<D: BlockDisk + Drop>(
    engine: &mut Engine<D>,
    text: &[u8],
    at: usize,
) -> Result<(), Fault> {
    hold(engine, text.get(FIRST..at).unwrap_or(&[]))?;
    let rest = text.get(at..).unwrap_or(&[]);
    if rest.is_empty() {
        return Ok(());
    }
    flush_rows(engine)?;
    engine.sync_pages()?;
    engine.ckpt_begin()?;
    let _blocks = write_blocks(engine);
    engine.ctl_sync()?;
    publish(engine)?;
    hold(engine, rest)
}

/// Redoes all that waits after a restart.
fn redo_engine<R: Print + Clock + Wait>(
    rt: &R,
    engine: Engine<MemDisk>,
    opened: Duration,
    bytes: usize,
    at: usize,
) -> io::Result<()> {
    let mut engine = engine;
    let waiting = engine.status().pending as u64;
    let start = Instant::now(rt)?;
    let answer = redo_some(&mut engine);
    let redone = start.elapsed(rt);
    drop(engine.into_disks(rt));
    if let Err(fault) = answer {
        return println!(rt; "{fault}");
    }
    let cost = Cost {
        waiting,
        opened,
        redone: redone?,
    };
    report(rt, bytes, bytes.saturating_sub(at), cost)
}

/// Prints the parts of a restart, and milliseconds a MB.
fn report<R: Print>(rt: &R, bytes: usize, behind: usize, cost: Cost) -> io::Result<()> {
    let megabytes = (bytes as u64 >> 20).max(1);
    let opened = u64::try_from(cost.opened.as_micros()).unwrap_or(u64::MAX);
    if behind == 0 {
        print!(rt; "restart without a checkpoint: ")?;
    } else {
        print!(rt; "restart with a checkpoint {behind} bytes before the end: ")?;
    }
    println!(rt;
        "open {} ms, {} us a MB, {} changes wait, redo {} ms",
        opened / 1000,
        opened / megabytes,
        cost.waiting,
        cost.redone.as_millis()
    )
}
