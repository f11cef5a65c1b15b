use std::io::{self, Write};
use std::rt::Clock;
use std::time::{Duration, Instant};

/// A stream to a primary that reads nothing. It keeps when the follower's last answer was written.
#[derive(Drop)]
pub struct Answers<'a, R: Clock> {
    rt: &'a R,
    start: Instant,
    last: Duration,
}

impl<'a, R: Clock> Answers<'a, R> {
    /// A stream from now on.
    pub fn new(rt: &'a R) -> io::Result<Answers<'a, R>> {
        let start = Instant::now(rt)?;
        Ok(Answers {
            rt,
            start,
            last: Duration::ZERO,
        })
    }

    /// From the start to the last answer, and from there to now.
    pub fn end(self) -> io::Result<(Duration, Duration)> {
        let Answers { rt, start, last } = self;
        Ok((last, start.elapsed(rt)?.saturating_sub(last)))
    }
}

impl<R: Clock> Write for Answers<'_, R> {
    fn write(&mut self, bytes: &[u8]) -> io::Result<usize> {
        self.last = self.start.elapsed(self.rt)?;
        Ok(bytes.len())
    }

    fn flush(&mut self) -> io::Result<()> {
        Ok(())
    }
}
