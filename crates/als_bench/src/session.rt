use crate::answers::Answers;
use als_engine::Events;
use als_follow::{Followed, follow_beside};
use als_operate::{Fault, follow};
use als_share::Counts;
use std::io;
use std::io::Write;
use std::rt::Clock;
use std::sync::Wait;
use std::thread::Threads;
use std::time::Duration;

/// A checkpoint is taken after so many bytes of log, as `als standby` does it.
const EACH: u64 = 4 << 20;

/// How long a session took.
#[derive(Clone, Copy)]
pub struct SessionTime {
    /// Up to the last answer, which acknowledges all of the log.
    pub acknowledged: Duration,
    /// From there on, until all is redone and written and a checkpoint is taken.
    pub put_away: Duration,
}

/// Follows a session whose frames lie in memory with so many workers; with 0 in one thread, as
/// `als standby --workers 0`. `None`: a thread could not be started.
pub fn session<E: Counts + Send + Drop, R: Clock + AllocGlobal + Threads + Wait + Sync>(
    rt: &R,
    engine: E,
    workers: usize,
    sent: &[u8],
) -> io::Result<(E, Option<Result<SessionTime, Fault>>)> {
    let answers = Answers::new(rt)?;
    let Followed {
        engine,
        reader: _,
        writer: answers,
        ended,
    } = if workers > 0 {
        follow_beside(rt, rt.alloc(), engine, workers, EACH, sent, answers)
    } else {
        follow_alone(rt, engine, sent, answers)
    };
    let (acknowledged, put_away) = answers.end()?;
    let took = SessionTime {
        acknowledged,
        put_away,
    };
    let ended = match ended {
        Some(Ok(())) => Some(Ok(took)),
        Some(Err(fault)) => Some(Err(fault)),
        None => None,
    };
    Ok((engine, ended))
}

/// The same in this thread alone.
fn follow_alone<'a, E: Events, R: AllocGlobal + Wait, O: Write>(
    rt: &R,
    engine: E,
    sent: &'a [u8],
    answers: O,
) -> Followed<E, &'a [u8], O> {
    let (mut engine, mut reader, mut writer) = (engine, sent, answers);
    let ended = Some(follow(rt, rt.alloc(), &mut engine, EACH, &mut reader, &mut writer));
    Followed {
        engine,
        reader,
        writer,
        ended,
    }
}

/// Milliseconds.
pub fn millis(took: Duration) -> u64 {
    u64::try_from(took.as_millis()).unwrap_or(u64::MAX)
}

/// MB a second.
pub fn speed(bytes: usize, took: Duration) -> u64 {
    bytes as u64 / u64::try_from(took.as_micros()).unwrap_or(u64::MAX).max(1)
}
