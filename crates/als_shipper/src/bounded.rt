use crate::turn::Turn;
use std::alloc::Global;
use std::io;
use std::io::{ErrorKind, Read, Write};
use std::net::OpenStream;
use std::sync::Arc;
use std::time::{Clock, Duration};

/// One of the two streams of a session, of which a frame takes limited time. A socket's own limit is of
/// each call by itself: whoever sends a byte now and then would never meet it.
#[derive(Drop)]
pub struct Bounded<'a, S, C> {
    stream: S,
    clock: &'a C,
    turn: Arc<Turn, Global>,
    /// How long a frame may take. None: as long as it likes.
    limit: Option<Duration>,
}

impl<'a, S, C> Bounded<'a, S, C> {
    /// A frame over this stream may take so long.
    pub(crate) fn new(
        stream: S,
        clock: &'a C,
        turn: Arc<Turn, Global>,
        limit: Option<Duration>,
    ) -> Bounded<'a, S, C> {
        Bounded {
            stream,
            clock,
            turn,
            limit,
        }
    }
}

/// What is left of a limit, of which so much is over. TimedOut: nothing is.
fn left(limit: Duration, over: Duration) -> io::Result<Duration> {
    if over >= limit {
        return Err(ErrorKind::TimedOut.into());
    }
    Ok(limit.saturating_sub(over))
}

impl<S: Read + OpenStream, C: Clock> Read for Bounded<'_, S, C> {
    // What is read from it is what its stream gives.
    ghost remaining = { λ bounded. S.remaining bounded.stream };

    fn read(&mut self, into: &mut [u8]) -> io::Result<usize> {
        if let Some(limit) = self.limit {
            let over = self.turn.read(self.clock.monotonic()?);
            self.stream.set_read_timeout(Some(left(limit, over)?))?;
        }
        self.stream.read(into)
    }
}

impl<S: Write + OpenStream, C: Clock> Write for Bounded<'_, S, C> {
    // What is written to it is what its stream is given.
    ghost contents = { λ bounded. S.contents bounded.stream };

    fn write(&mut self, bytes: &[u8]) -> io::Result<usize> {
        if let Some(limit) = self.limit {
            let over = self.turn.write(self.clock.monotonic()?);
            self.stream.set_write_timeout(Some(left(limit, over)?))?;
        }
        self.stream.write(bytes)
    }

    fn flush(&mut self) -> io::Result<()> {
        self.stream.flush()
    }
}
