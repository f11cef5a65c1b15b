ghost use Rattle.std.specs.Prelude.{◌≡◌, OnOk};

use crate::era::Era;
use std::io;
use std::io::Write;
use std::sync::Wait;

/// A stream to a follower, as long as the standby keeps the history that the follower was told.
pub struct UnderEra<'a, R, O> {
    rt: &'a R,
    era: &'a Era,
    /// The number of the adoption of that history.
    number: u64,
    stream: O,
}

impl<R, O: Drop> Drop for UnderEra<'_, R, O> {
    fn drop(self) {
        let UnderEra {
            rt: _,
            era: _,
            number: _,
            stream,
        } = self;
        drop(stream);
    }
}

impl<'a, R, O> UnderEra<'a, R, O> {
    /// This stream, under the adoption with this number.
    pub fn new(rt: &'a R, era: &'a Era, number: u64, stream: O) -> UnderEra<'a, R, O>
        ensures stream { result.stream ≡ stream }
        ensures number { result.number ≡ number }
    {
        UnderEra {
            rt,
            era,
            number,
            stream,
        }
    }

    /// The stream.
    pub fn end(self) -> O
        ensures { result ≡ self.entry.stream }
    {
        let UnderEra {
            rt: _,
            era: _,
            number: _,
            stream,
        } = self;
        stream
    }
}

/// An error: the number of the last adoption is another one than that with which a session began.
fn check_number(now: u64, begun: u64) -> io::Result<()>
    ensures { OnOk result (now ≡ begun) }
{
    if now == begun {
        Ok(())
    } else {
        Err(io::ErrorKind::Other.into())
    }
}

impl<R: Wait, O: Write> Write for UnderEra<'_, R, O> {
    // What the follower is sent is what its stream is given.
    ghost contents = { λ under. O.contents under.stream };

    // These bytes are of a log whose end the session knew before. So it was acknowledged before the number is
    // read, and where that is the one of the session, before another adoption.
    fn write(&mut self, bytes: &[u8]) -> io::Result<usize> {
        check_number(self.era.number(self.rt), self.number)?;
        self.stream.write(bytes)
    }

    fn flush(&mut self) -> io::Result<()> {
        self.stream.flush()
    }
}
