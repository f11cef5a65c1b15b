ghost use Rattle.std.specs.Prelude.{◌≡◌};

use crate::signs::Signs;
use std::io;
use std::io::Write;

/// What is answered to a primary: the question of a session, and acknowledgements.
pub(crate) struct Answered<'a, O> {
    stream: O,
    signs: &'a Signs<'a>,
}

impl<O: Drop> Drop for Answered<'_, O> {
    fn drop(self) {
        let Answered { stream, signs: _ } = self;
        drop(stream);
    }
}

impl<'a, O> Answered<'a, O> {
    pub fn new(stream: O, signs: &'a Signs<'a>) -> Answered<'a, O>
        ensures { result.stream ≡ stream }
    {
        Answered { stream, signs }
    }

    /// The stream.
    pub fn end(self) -> O
        ensures { result ≡ self.entry.stream }
    {
        let Answered { stream, signs: _ } = self;
        stream
    }
}

impl<O: Write> Write for Answered<'_, O> {
    // What is answered to the primary is what its stream is given.
    ghost contents = { λ answered. O.contents answered.stream };

    fn write(&mut self, bytes: &[u8]) -> io::Result<usize> {
        let written = self.stream.write(bytes)?;
        self.signs.answered();
        Ok(written)
    }

    fn flush(&mut self) -> io::Result<()> {
        self.stream.flush()
    }
}
