ghost use Rattle.std.specs.Prelude.{◌≡◌};

use crate::advance::Advance;
use crate::work::Work;
use std::io;
use std::io::Read;

/// A reader of so many bytes that tells how far it was read. What it reads is what its reader does.
pub struct Watched<R, A> {
    reader: R,
    advance: A,
    work: Work,
    done: u64,
    whole: u64,
}

// Written out: a derived drop is proved wherever one is dropped, this one only here.
impl<R: Drop, A: Drop> Drop for Watched<R, A> {
    fn drop(self) {
        let Watched {
            reader,
            advance,
            work: _,
            done: _,
            whole: _,
        } = self;
        drop(reader);
        drop(advance);
    }
}

impl<R: Read, A: Advance> Watched<R, A> {
    /// A reader of which nothing was read.
    pub fn new(reader: R, work: Work, whole: u64, advance: A) -> Watched<R, A>
        ensures { ⟦<Watched<R, A> as Read>⟧.remaining result ≡ R.remaining reader }
    {
        Watched {
            reader,
            advance,
            work,
            done: 0,
            whole,
        }
    }
}

impl<R: Read, A: Advance> Read for Watched<R, A> {
    ghost remaining = { λ w. R.remaining w.reader };

    fn read(&mut self, into: &mut [u8]) -> io::Result<usize> {
        let read = self.reader.read(into);
        if let Ok(count) = &read {
            self.done = self.done.saturating_add(*count as u64);
            self.advance.advances(self.work, self.done, self.whole);
        }
        read
    }
}
