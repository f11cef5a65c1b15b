use als_operate::Fault;
use als_record::Lsn;
use als_service::{Met, Outages, Primaries};
use std::io;
use std::io::{Read, Write};

/// One end of a stream in memory: what is read of it, and what is written to it.
pub struct End {
    bytes: Vec<u8>,
    at: usize,
    told: Vec<u8>,
}

impl Drop for End {
    #[inline(never)]
    fn drop(self) {
        let End { bytes, at: _, told } = self;
        drop(bytes);
        drop(told);
    }
}

impl End {
    /// Nothing was read of these bytes, and nothing written.
    pub fn new(bytes: Vec<u8>, told: Vec<u8>) -> End {
        End { bytes, at: 0, told }
    }
}

impl Read for End {
    #[inline(never)]
    fn read(&mut self, into: &mut [u8]) -> io::Result<usize> {
        let Some(mut rest) = self.bytes.as_slice().get(self.at..) else {
            return Ok(0);
        };
        let count = rest.read(into)?;
        self.at = self.at.saturating_add(count);
        Ok(count)
    }
}

impl Write for End {
    #[inline(never)]
    fn write(&mut self, bytes: &[u8]) -> io::Result<usize> {
        self.told.write(bytes)
    }

    fn flush(&mut self) -> io::Result<()> {
        Ok(())
    }
}

/// Connections that are given beforehand, the last one first. None: nobody answers.
pub struct Scripted<S> {
    ready: Vec<Option<(S, S)>>,
    met: Met<S>,
}

impl<S: Drop> Drop for Scripted<S> {
    #[inline(never)]
    fn drop(self) {
        let Scripted { ready, met } = self;
        drop(ready);
        drop(met);
    }
}

impl<S> Scripted<S> {
    pub fn new(ready: Vec<Option<(S, S)>>) -> Scripted<S> {
        Scripted {
            ready,
            met: Met::Nobody,
        }
    }
}

impl<S: Read + Write + Drop> Primaries<S> for Scripted<S> {
    ghost use Rattle.als_service.specs.Met.{sessions_of};

    ghost met = { λ scripted. sessions_of S.contents scripted.met };

    #[inline(never)]
    fn next(&mut self) -> Result<(S, S), Fault> {
        match self.ready.pop() {
            Some(Some((reader, writer))) => {
                self.met.begin(&writer);
                Ok((reader, writer))
            }
            Some(None) | None => {
                self.met.refuse(Fault::Stream);
                Err(Fault::Stream)
            }
        }
    }

    #[inline(never)]
    fn part(&mut self, reader: S, writer: S, ended: Option<Result<(), Fault>>) {
        self.met.end(&writer, ended);
        drop(reader);
        drop(writer);
    }
}

/// The last outage, the last refusal and the last hang-ups that were told.
#[derive(Drop)]
pub struct Told {
    pub last: Option<(Option<Fault>, u64)>,
    pub refusal: Option<(Fault, u64)>,
    pub hang_ups: Option<u32>,
}

impl Told {
    /// Nothing was told.
    pub fn nothing() -> Told {
        Told {
            last: None,
            refusal: None,
            hang_ups: None,
        }
    }
}

impl Outages for Told {
    #[inline(never)]
    fn outage(&mut self, fault: Option<Fault>, millis: u64) {
        self.last = Some((fault, millis));
    }

    #[inline(never)]
    fn refusal(&mut self, fault: Fault, millis: u64) {
        self.refusal = Some((fault, millis));
    }

    #[inline(never)]
    fn hang_ups(&mut self, count: u32) {
        self.hang_ups = Some(count);
    }

    #[inline(never)]
    fn uncompared(&mut self) {}

    #[inline(never)]
    fn nearly_full(&mut self, _end: Lsn, _capacity: u64) {}
}
