use als_analysis::TransTable;
use als_disk::MemDisk;
use als_log::{Fault, LocalLog, NewLog};
use als_record::{Record, decode};
use als_sample_logs::{PAGES, write_losers};
use als_takeover::next_undo;
use std::alloc::Global;
use std::io;
use std::rt::Clock;
use std::time::{Duration, Instant};

/// A log on a device in memory, and its transaction table.
#[derive(Drop)]
struct Held {
    log: LocalLog<MemDisk>,
    table: TransTable,
}

/// What an undo took: its records and its time.
#[derive(Clone, Copy)]
struct Took {
    records: u64,
    time: Duration,
}

/// Undoes all of logs of this many losers, which have this many surviving updates together: for
/// each record `next_undo` reads the log along the undo chains, and the transaction table takes
/// what it answers. Nothing is appended to the log.
pub fn undo_all<R: Print + Clock + AllocGlobal>(rt: &R) -> io::Result<()> {
    for (losers, updates) in [(1, 100_000), (16, 100_000), (256, 100_000), (1, 1_000_000)] {
        match hold(rt.alloc(), losers, updates) {
            Ok(held) => undo(rt, held, losers, updates)?,
            Err(fault) => println!(rt; "{fault}")?,
        }
    }
    Ok(())
}

/// A log of so many losers and updates, all of it on its device, and its table.
fn hold(alloc: Global, losers: u32, updates: u32) -> Result<Held, Fault> {
    let Ok(text) = write_losers(alloc, losers, updates) else {
        return Err(Fault::Memory);
    };
    let Ok(table) = TransTable::new(alloc) else {
        return Err(Fault::Memory);
    };
    let blocks = text.len() as u64 / 512 + 1;
    if blocks > 4_194_304 {
        return Err(Fault::LogFull);
    }
    let new = NewLog::new(alloc, PAGES)?;
    let Ok(log) = LocalLog::lay_out(MemDisk::new(alloc, blocks), new) else {
        return Err(Fault::Device);
    };
    let mut held = Held { log, table };
    append_all(alloc, &mut held, text.as_slice())?;
    write_all(&mut held.log)?;
    Ok(held)
}

/// Appends each record of a text, and notes it.
fn append_all(alloc: Global, held: &mut Held, text: &[u8]) -> Result<(), Fault> {
    for _ in 0..u64::MAX {
        let end = held.log.end();
        let Some(rest) = text.get(end.0 as usize..) else {
            break;
        };
        let Ok(Some((logged, _))) = decode(alloc, rest, end, held.log.pages()) else {
            break;
        };
        held.log.append(&logged, 0)?;
        note(&mut held.table, logged)?;
    }
    Ok(())
}

/// Notes a record, and lets it go.
fn note(table: &mut TransTable, logged: Record) -> Result<(), Fault> {
    match table.note(&logged.view()) {
        Ok(()) => Ok(()),
        Err(_) => Err(Fault::Memory),
    }
}

/// Writes all of a log, and syncs.
fn write_all(log: &mut LocalLog<MemDisk>) -> Result<(), Fault> {
    for _ in 0..u64::MAX {
        match log.write_block() {
            Ok(()) => {}
            Err(Fault::NothingToDo) => break,
            Err(fault) => return Err(fault),
        }
    }
    log.sync()
}

/// Undoes all of a log, and prints what a record took.
fn undo<R: Print + Clock>(rt: &R, held: Held, losers: u32, updates: u32) -> io::Result<()> {
    let mut held = held;
    let start = Instant::now(rt)?;
    let answer = undo_to_the_end(&mut held);
    let time = start.elapsed(rt)?;
    match answer {
        Ok(records) => report(rt, losers, updates, Took { records, time }),
        Err(fault) => println!(rt; "{fault}"),
    }
}

/// Asks for the next record until there is none, and answers how many there were.
fn undo_to_the_end(held: &mut Held) -> Result<u64, Fault> {
    let mut records = 0u64;
    for _ in 0..u64::MAX {
        match next_undo(&held.table, &mut held.log)? {
            Some(made) => note(&mut held.table, made)?,
            None => break,
        }
        records = records.saturating_add(1);
    }
    Ok(records)
}

/// Prints records a second.
fn report<R: Print>(rt: &R, losers: u32, updates: u32, took: Took) -> io::Result<()> {
    let nanos = u64::try_from(took.time.as_nanos())
        .unwrap_or(u64::MAX)
        .max(1);
    let micros = (nanos / 1000).max(1);
    println!(rt;
        "next_undo, {losers} losers with {updates} survivors: {} records, {} records/s, {} ns each",
        took.records,
        took.records.saturating_mul(1_000_000) / micros,
        nanos / took.records.max(1)
    )
}
