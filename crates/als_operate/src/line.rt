use std::alloc::Global;
use std::io;
use std::io::{Read, Write};

/// A connection of which a first answer may have been read, and a first question written, before a
/// follower takes it. The follower reads that answer again, and its own question is not sent again.
pub struct Line<S> {
    stream: S,
    /// What was read before.
    came: Vec<u8>,
    /// How many bytes of it were read again.
    at: usize,
    /// How many of the next bytes written were sent before.
    asked: usize,
}

impl<S: Drop> Drop for Line<S> {
    fn drop(self) {
        let Line {
            stream,
            came,
            at: _,
            asked: _,
        } = self;
        drop(stream);
        drop(came);
    }
}

impl<S> Line<S> {
    /// A connection of which nothing was read or written.
    pub fn new(alloc: Global, stream: S) -> Line<S> {
        Line {
            stream,
            came: Vec::new(alloc),
            at: 0,
            asked: 0,
        }
    }

    /// A connection to be read, over which these bytes came before.
    pub(crate) fn answered(stream: S, came: Vec<u8>) -> Line<S> {
        Line {
            stream,
            came,
            at: 0,
            asked: 0,
        }
    }

    /// A connection to be written, over which so many bytes were sent before.
    pub(crate) fn asked(alloc: Global, stream: S, asked: usize) -> Line<S> {
        Line {
            stream,
            came: Vec::new(alloc),
            at: 0,
            asked,
        }
    }
}

impl<S: Read> Read for Line<S> {
    fn read(&mut self, into: &mut [u8]) -> io::Result<usize> {
        if self.at >= self.came.len() {
            return self.stream.read(into);
        }
        let Some(mut rest) = self.came.as_slice().get(self.at..) else {
            return Ok(0);
        };
        let count = rest.read(into)?;
        self.at = self.at.saturating_add(count);
        Ok(count)
    }
}

impl<S: Write> Write for Line<S> {
    fn write(&mut self, bytes: &[u8]) -> io::Result<usize> {
        if self.asked == 0 {
            return self.stream.write(bytes);
        }
        let count = self.asked.min(bytes.len());
        self.asked -= count;
        Ok(count)
    }

    fn flush(&mut self) -> io::Result<()> {
        self.stream.flush()
    }
}
