ghost use Rattle.std.specs.Prelude.{◌≡◌};

use crate::notices::Notices;
use crate::outages::Outages;
use crate::signs::Signs;
use std::io;
use std::io::Read;
use std::time::Clock;

/// What a primary sends. The board records that something came, which waits for its acknowledgement
/// then. A connection alone proves nothing: the system accepts it also for a primary that is frozen. A log that
/// is nearly full is reported here too: a session may last for days.
pub(crate) struct Heard<'a, I, C, N: Drop> {
    stream: I,
    signs: &'a Signs<'a>,
    clock: &'a C,
    notices: Notices<N>,
}

impl<I: Drop, C, N: Drop> Drop for Heard<'_, I, C, N> {
    fn drop(self) {
        let Heard {
            stream,
            signs: _,
            clock: _,
            notices,
        } = self;
        drop(stream);
        drop(notices);
    }
}

impl<'a, I, C, N: Drop> Heard<'a, I, C, N> {
    pub fn new(
        stream: I,
        signs: &'a Signs<'a>,
        clock: &'a C,
        notices: Notices<N>,
    ) -> Heard<'a, I, C, N> {
        Heard {
            stream,
            signs,
            clock,
            notices,
        }
    }

    /// Whether nothing came.
    pub fn is_silent(&self) -> bool {
        self.signs.is_silent()
    }

    /// The stream, and who prints.
    pub fn end(self) -> (I, Notices<N>) {
        let Heard {
            stream,
            signs: _,
            clock: _,
            notices,
        } = self;
        (stream, notices)
    }
}

impl<I: Read, C: Clock, N: Outages + Drop> Read for Heard<'_, I, C, N> {
    ghost remaining = { λ heard. I.remaining heard.stream };

    fn read(&mut self, into: &mut [u8]) -> io::Result<usize> {
        self.signs.waited_for();
        match self.stream.read(into) {
            Ok(count) => {
                if count > 0 {
                    self.notices.bytes_came();
                    self.signs.came(self.clock);
                    let board = self.signs.board();
                    self.notices.room(self.clock, board.end(), board.capacity());
                }
                Ok(count)
            }
            Err(e) => Err(e),
        }
    }
}
