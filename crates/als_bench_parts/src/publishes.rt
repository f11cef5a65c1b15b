use crate::beside::Beside;
use crate::filled::{LoggedDatabase, filled, queue_drawn};
use als_published_log::Fault;
use std::alloc::Global;
use std::io;
use std::rt::Clock;
use std::sync::Wait;
use std::thread::Threads;
use std::time::{Duration, Instant};

/// How many writes one measurement publishes.
const WRITES: u32 = 1 << 18;

/// Publishes of so many commits at once, each of so many writes, beside readers that read.
#[derive(Clone, Copy)]
struct Load {
    commits: u32,
    writes: u32,
    readers: usize,
}

/// How often was published, and how long it took.
#[derive(Clone, Copy)]
struct Took {
    publishes: u64,
    time: Duration,
}

/// Prints how long a publish takes: of one commit of 1, 8 and 64 writes, and of 150 commits of 8
/// writes, about what a frame of a log brings. Nobody reads, or 1 or 4 threads do.
pub fn publish_all<R: Print + Clock + AllocGlobal + Threads + Wait>(rt: &R) -> io::Result<()> {
    for (commits, writes) in [(1, 1), (1, 8), (1, 64), (150, 8)] {
        for readers in [0usize, 1, 4] {
            let load = Load {
                commits,
                writes,
                readers,
            };
            publish_beside(rt, load)?;
        }
    }
    Ok(())
}

fn publish_beside<R: Print + Clock + AllocGlobal + Threads + Wait>(
    rt: &R,
    load: Load,
) -> io::Result<()> {
    match filled(rt, rt.alloc(), load.readers) {
        Ok((mut log, mut all)) => {
            all.truncate(load.readers);
            let beside = Beside::start(rt, rt.alloc(), all)?;
            let took = publish_rounds(rt, rt.alloc(), &mut log, load);
            beside.stop(rt);
            log.close(rt);
            tell(rt, load, took?)
        }
        Err(fault) => println!(rt; "{fault}"),
    }
}

/// Prints a figure.
fn tell<R: Print>(rt: &R, load: Load, took: Result<Took, Fault>) -> io::Result<()> {
    let took = match took {
        Ok(took) => took,
        Err(fault) => return println!(rt; "{fault}"),
    };
    let nanos = u64::try_from(took.time.as_nanos()).unwrap_or(u64::MAX);
    println!(rt;
        "publish {} commits of {} writes beside {} readers: {} ns each, of {} publishes",
        load.commits,
        load.writes,
        load.readers,
        nanos / took.publishes.max(1),
        took.publishes
    )
}

/// Queues commits and publishes them, round after round. What queues them is not counted.
fn publish_rounds<R: Clock + Wait>(
    rt: &R,
    alloc: Global,
    log: &mut LoggedDatabase,
    load: Load,
) -> io::Result<Result<Took, Fault>> {
    let mut took = Took {
        publishes: 0,
        time: Duration::ZERO,
    };
    let each = load.commits.saturating_mul(load.writes).max(1);
    for round in 0..WRITES / each {
        if let Err(fault) = queue_some(alloc, log, round, load) {
            return Ok(Err(fault));
        }
        let start = Instant::now(rt)?;
        let done = log.log.publish(rt);
        took.time = took.time.saturating_add(start.elapsed(rt)?);
        took.publishes = took.publishes.saturating_add(1);
        if done.is_err() {
            return Ok(Err(Fault::Memory));
        }
    }
    Ok(Ok(took))
}

/// Queues the commits of a publish.
fn queue_some(
    alloc: Global,
    log: &mut LoggedDatabase,
    round: u32,
    load: Load,
) -> Result<(), Fault> {
    let first = round.wrapping_mul(load.commits);
    for number in 0..load.commits {
        queue_drawn(alloc, log, first.wrapping_add(number), load.writes)?;
    }
    Ok(())
}
