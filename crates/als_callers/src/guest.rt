use crate::pace::Pace;
use std::io;
use std::io::{ErrorKind, Read, Write};
use std::time::Clock;

/// One end of a stream whose frames have limited time. Each call of the stream blocks for a moment only.
pub struct Guest<'a, S, C> {
    stream: S,
    clock: &'a C,
    pace: &'a Pace<'a>,
}

impl<S: Drop, C> Drop for Guest<'_, S, C> {
    fn drop(self) {
        let Guest {
            stream,
            clock: _,
            pace: _,
        } = self;
        drop(stream);
    }
}

impl<'a, S, C> Guest<'a, S, C> {
    /// An end of a stream, timed by this pace.
    pub fn new(stream: S, clock: &'a C, pace: &'a Pace<'a>) -> Guest<'a, S, C> {
        Guest {
            stream,
            clock,
            pace,
        }
    }
}

/// Whether a read or a write only timed out.
fn is_late(e: &io::Error) -> bool {
    matches!(
        e.kind(),
        ErrorKind::WouldBlock | ErrorKind::TimedOut | ErrorKind::Interrupted
    )
}

impl<S: Read, C: Clock> Read for Guest<'_, S, C> {
    fn read(&mut self, into: &mut [u8]) -> io::Result<usize> {
        self.pace.read(self.clock.monotonic()?);
        for _ in 0..u64::MAX {
            if self.pace.is_over(self.clock.monotonic()?) {
                break;
            }
            match self.stream.read(into) {
                Ok(count) => {
                    self.pace.go(count, self.clock.monotonic()?);
                    return Ok(count);
                }
                Err(e) if is_late(&e) => {}
                Err(e) => return Err(e),
            }
        }
        Err(ErrorKind::TimedOut.into())
    }
}

impl<S: Write, C: Clock> Write for Guest<'_, S, C> {
    fn write(&mut self, bytes: &[u8]) -> io::Result<usize> {
        self.pace.write(self.clock.monotonic()?);
        for _ in 0..u64::MAX {
            if self.pace.is_over(self.clock.monotonic()?) {
                break;
            }
            match self.stream.write(bytes) {
                Ok(count) => {
                    self.pace.go(count, self.clock.monotonic()?);
                    return Ok(count);
                }
                Err(e) if is_late(&e) => {}
                Err(e) => return Err(e),
            }
        }
        Err(ErrorKind::TimedOut.into())
    }

    fn flush(&mut self) -> io::Result<()> {
        self.stream.flush()
    }
}
