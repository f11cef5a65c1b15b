use crate::beside::Beside;
use crate::filled::{LoggedDatabase, filled, queue_drawn};
use als_published_log::Fault;
use std::alloc::Global;
use std::rt::Clock;
use std::sync::Wait;
use std::thread::Threads;
use std::time::{Duration, Instant};
use std::{io, thread};

/// How the publisher goes on while there are reads.
#[derive(Clone, Copy)]
enum Pace {
    Idle,
    EachMillisecond,
    WithoutPause,
}

impl Pace {
    /// How a figure names it.
    fn name(self) -> &'static str {
        match self {
            Pace::Idle => "no publish",
            Pace::EachMillisecond => "a publish each millisecond",
            Pace::WithoutPause => "publishes without pause",
        }
    }

    /// How long the publisher waits between two publishes.
    fn pause(self) -> Duration {
        match self {
            Pace::Idle => Duration::from_millis(20),
            Pace::EachMillisecond => Duration::from_millis(1),
            Pace::WithoutPause => Duration::ZERO,
        }
    }
}

/// Prints how many committed reads a second 1, 2 and 4 threads make at random keys, each of which
/// has a value: while nothing is published, while a commit of eight writes is published each
/// millisecond, and while one is published after the other. Each figure takes so many seconds.
pub fn read_all<R: Print + Clock + AllocGlobal + Threads + Wait>(
    rt: &R,
    seconds: u32,
) -> io::Result<()> {
    for readers in [1usize, 2, 4] {
        for pace in [Pace::Idle, Pace::EachMillisecond, Pace::WithoutPause] {
            match filled(rt, rt.alloc(), readers) {
                Ok((mut log, all)) => {
                    let beside = Beside::start(rt, rt.alloc(), all)?;
                    read_beside(rt, &mut log, beside, readers, pace, seconds)?;
                    log.close(rt);
                }
                Err(fault) => println!(rt; "{fault}")?,
            }
        }
    }
    Ok(())
}

fn read_beside<R: Print + Clock + AllocGlobal + Threads + Wait>(
    rt: &R,
    log: &mut LoggedDatabase,
    beside: Beside,
    readers: usize,
    pace: Pace,
    seconds: u32,
) -> io::Result<()> {
    let start = Instant::now(rt)?;
    let length = Duration::from_secs(u64::from(seconds));
    let published = publish_for(rt, rt.alloc(), log, pace, start, length);
    let reads = beside.stop(rt);
    let took = start.elapsed(rt)?;
    let micros = u64::try_from(took.as_micros()).unwrap_or(u64::MAX).max(1);
    let each = micros.saturating_mul(1000).saturating_mul(readers as u64) / reads.max(1);
    match published {
        Ok(published) => println!(rt;
            "committed reads by {readers} threads, {}: {} reads/s, {each} ns each; {} publishes/s",
            pace.name(),
            reads.saturating_mul(1_000_000) / micros,
            published.saturating_mul(1_000_000) / micros
        ),
        Err(fault) => println!(rt; "{fault}"),
    }
}

/// Publishes commits of eight writes at a pace for this long, and answers how many.
fn publish_for<R: Clock + Wait>(
    rt: &R,
    alloc: Global,
    log: &mut LoggedDatabase,
    pace: Pace,
    start: Instant,
    length: Duration,
) -> Result<u64, Fault> {
    let mut published = 0u64;
    for number in 0..u32::MAX {
        match start.elapsed(rt) {
            Ok(took) if took < length => {}
            _ => break,
        }
        let pause = pace.pause();
        if pause > Duration::ZERO {
            thread::sleep(rt, pause);
        }
        if !matches!(pace, Pace::Idle) {
            queue_drawn(alloc, log, number, 8)?;
            log.log.publish(rt)?;
            published = published.saturating_add(1);
        }
    }
    Ok(published)
}
