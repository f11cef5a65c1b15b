use crate::counted::Counted;
use crate::devices::{disks_of, new_engine, write_out};
use crate::fed::feed_all;
use crate::rolled::roll_all;
use als_disk::{BlockDisk, MemDisk};
use als_engine::{Disks, Engine, Events, Fault, Writes};
use als_sample_logs::Dice;
use als_ship::{Fault as ForceFault, force};
use als_writer::{Changes, Transaction, write};
use std::alloc::Global;
use std::io;
use std::rt::Clock;
use std::sync::Wait;
use std::time::{Duration, Instant};

/// The sets of all transactions of a size.
const SETS: u32 = 400_000;

/// The sets of the transactions that are written before the log is put on its device, some 1 MB.
const ROUND: u32 = 20_000;

/// The pages of a database that is in the processor's cache, and of the largest one.
const PAGES: [u32; 2] = [64, 4_096];

/// The transactions of which each is forced.
const FORCED: usize = 1_000;

/// The pages of their database.
const FORCED_PAGES: u32 = 64;

/// Measures transactions of 1, 2 and 10 sets into an engine in memory, which are not forced, beside a
/// feed of the same bytes. Then it counts the syncs of transactions that are forced one by one.
pub fn write_sizes<R: Print + Clock + AllocGlobal + Wait>(rt: &R) -> io::Result<()> {
    for pages in PAGES {
        for sets in [1, 2, 10] {
            write_size(rt, pages, sets)?;
        }
    }
    count_syncs(rt)
}

/// Measures transactions of this many sets, and a feed of what they wrote.
fn write_size<R: Print + Clock + AllocGlobal + Wait>(
    rt: &R,
    pages: u32,
    sets: u32,
) -> io::Result<()> {
    let alloc = rt.alloc();
    let engine = match new_engine(rt, alloc, disks_of(alloc, pages), pages) {
        Ok(engine) => engine,
        Err(fault) => return println!(rt; "{fault}"),
    };
    let (text, written) = match write_engine(rt, engine, pages, sets)? {
        Ok(done) => done,
        Err(fault) => return println!(rt; "{fault}"),
    };
    let fed = match new_engine(rt, alloc, disks_of(alloc, pages), pages) {
        Ok(engine) => feed_all(rt, engine, text.as_slice())?,
        Err(fault) => return println!(rt; "{fault}"),
    };
    match fed {
        Ok(fed) => report(rt, pages, sets, text.len(), written, fed),
        Err(fault) => println!(rt; "{fault}"),
    }
}

/// Prints both figures.
fn report<R: Print>(
    rt: &R,
    pages: u32,
    sets: u32,
    bytes: usize,
    written: Duration,
    fed: Duration,
) -> io::Result<()> {
    let (write_rate, feed_rate) = (rate(written), rate(fed));
    let percent = write_rate.saturating_mul(100) / feed_rate.max(1);
    println!(rt;
        "write transactions of {sets} sets, {pages} pages: {write_rate} sets/s; a feed of these {bytes} bytes: {feed_rate} sets/s, {percent} %"
    )
}

/// Sets a second.
fn rate(took: Duration) -> u64 {
    let micros = u64::try_from(took.as_micros()).unwrap_or(u64::MAX).max(1);
    u64::from(SETS).saturating_mul(1_000_000) / micros
}

/// The log that transactions of this many sets leave, and how long they took.
fn write_engine<R: Clock + AllocGlobal + Wait>(
    rt: &R,
    engine: Engine<MemDisk>,
    pages: u32,
    sets: u32,
) -> io::Result<Result<(Vec<u8>, Duration), Fault>> {
    let mut engine = engine;
    let answer = write_rounds(rt, &mut engine, pages, sets);
    let end = engine.status().end.0;
    let mut disks = engine.into_disks(rt);
    let text = text_of(rt.alloc(), &mut disks.log, end)?;
    drop(disks);
    match answer? {
        Ok(took) => Ok(Ok((text, took))),
        Err(fault) => Ok(Err(fault)),
    }
}

/// The first bytes of a device.
fn text_of<D: BlockDisk>(alloc: Global, disk: &mut D, end: u64) -> io::Result<Vec<u8>> {
    let mut text = Vec::new(alloc);
    for i in 0..end.div_ceil(512).min(disk.blocks()) {
        if i < disk.blocks() {
            let mut block = [0; 512];
            if disk.read(i, &mut block).is_err() {
                break;
            }
            text.extend_from_slice(&block)?;
        }
    }
    text.truncate(end as usize);
    Ok(text)
}

/// Writes transactions, and returns how long that took. The log's writing and redo have their turns in
/// between, and their time is not counted.
fn write_rounds<R: Clock + AllocGlobal, D: BlockDisk + Drop>(
    rt: &R,
    engine: &mut Engine<D>,
    pages: u32,
    sets: u32,
) -> io::Result<Result<Duration, Fault>> {
    let alloc = rt.alloc();
    let mut dice = Dice::new(1);
    let mut changes = Changes::new(alloc, pages, engine.writing().last_commit)?;
    let mut took = Duration::ZERO;
    for _ in 0..SETS / ROUND {
        let count = (ROUND / sets.max(1)) as usize;
        let all = roll_all(alloc, &mut dice, pages, sets, count)?;
        let start = Instant::now(rt)?;
        let answer = write_each(alloc, engine, &mut changes, all.as_slice());
        took = took.saturating_add(start.elapsed(rt)?);
        let answer = match answer {
            Ok(()) => write_out(engine),
            Err(fault) => Err(fault),
        };
        if let Err(fault) = answer {
            return Ok(Err(fault));
        }
    }
    Ok(Ok(took))
}

/// Writes each of these transactions.
fn write_each<E: Writes>(
    alloc: Global,
    engine: &mut E,
    changes: &mut Changes,
    all: &[Transaction],
) -> Result<(), Fault> {
    for transaction in all {
        put(alloc, engine, changes, transaction)?;
    }
    Ok(())
}

/// Writes one transaction. A refusal without a fault of its own counts as NothingToDo.
fn put<E: Writes>(
    alloc: Global,
    engine: &mut E,
    changes: &mut Changes,
    transaction: &Transaction,
) -> Result<(), Fault> {
    match write(alloc, engine, changes, transaction) {
        Ok(_) => Ok(()),
        Err(refusal) => Err(refusal.fault().unwrap_or(Fault::NothingToDo)),
    }
}

/// How often each device of a writer was synced.
#[derive(Clone, Copy)]
struct Syncs {
    log: u64,
    control: u64,
    pages: u64,
}

/// Counts the syncs of transactions that are forced one by one: those of a writer without a
/// transaction are taken off.
fn count_syncs<R: Print + AllocGlobal + Wait>(rt: &R) -> io::Result<()> {
    let (before, after) = match (syncs_of(rt, 0)?, syncs_of(rt, FORCED)?) {
        (Ok(before), Ok(after)) => (before, after),
        (Err(fault), _) | (_, Err(fault)) => return println!(rt; "{fault}"),
    };
    let log = after.log.saturating_sub(before.log);
    let control = after.control.saturating_sub(before.control);
    let pages = after.pages.saturating_sub(before.pages);
    println!(rt;
        "{FORCED} transactions with a force each: {log} syncs of the log, {control} of the control block, {pages} of the pages"
    )
}

/// The syncs of a writer of so many transactions, each of one set and forced, from its layout on.
fn syncs_of<R: AllocGlobal + Wait>(rt: &R, count: usize) -> io::Result<Result<Syncs, Fault>> {
    let alloc = rt.alloc();
    let Disks {
        log,
        control,
        pages,
    } = disks_of(alloc, FORCED_PAGES);
    let disks = Disks {
        log: Counted::new(log),
        control: Counted::new(control),
        pages: Counted::new(pages),
    };
    let mut engine = match new_engine(rt, alloc, disks, FORCED_PAGES) {
        Ok(engine) => engine,
        Err(fault) => return Ok(Err(fault)),
    };
    let answer = force_each(alloc, &mut engine, count);
    let Disks {
        log,
        control,
        pages,
    } = engine.into_disks(rt);
    let syncs = Syncs {
        log: log.syncs(),
        control: control.syncs(),
        pages: pages.syncs(),
    };
    match answer? {
        Ok(()) => Ok(Ok(syncs)),
        Err(fault) => Ok(Err(fault)),
    }
}

/// Writes transactions of one set, and forces each.
fn force_each<E: Writes>(
    alloc: Global,
    engine: &mut E,
    count: usize,
) -> io::Result<Result<(), Fault>> {
    let mut dice = Dice::new(1);
    let mut changes = Changes::new(alloc, FORCED_PAGES, engine.writing().last_commit)?;
    let all = roll_all(alloc, &mut dice, FORCED_PAGES, 1, count)?;
    for transaction in all.iter() {
        if let Err(fault) = put_durably(alloc, engine, &mut changes, transaction) {
            return Ok(Err(fault));
        }
    }
    Ok(Ok(()))
}

/// Writes one transaction and forces the log.
fn put_durably<E: Writes>(
    alloc: Global,
    engine: &mut E,
    changes: &mut Changes,
    transaction: &Transaction,
) -> Result<(), Fault> {
    put(alloc, engine, changes, transaction)?;
    match force(engine) {
        Ok(_) => Ok(()),
        Err(ForceFault::Refused(fault)) => Err(fault),
        Err(_) => Err(Fault::Device),
    }
}
