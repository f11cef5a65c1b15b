use crate::era::Era;
use crate::under_era::UnderEra;
use als_followers::{NodeSource, Pulse, Serves, Tail};
use als_sending::Marks;
use als_ship::Fault;
use std::alloc::Global;
use std::fs::{File, OpenFile};
use std::io::{Read, Write};
use std::sync::{Arc, Wait};
use std::time::Clock;

/// What sessions send a standby's log from: its file, the tail and the era; and by which pulse they beat.
pub struct StandbySource<R, P> {
    rt: R,
    file: File,
    tail: Arc<Tail, Global>,
    era: Arc<Era, Global>,
    pulse: Arc<P, Global>,
    timeout: u64,
}

impl<R: Drop, P: Drop> Drop for StandbySource<R, P> {
    fn drop(self) {
        let StandbySource {
            rt,
            file,
            tail,
            era,
            pulse,
            timeout: _,
        } = self;
        drop(rt);
        drop(file);
        drop(tail);
        drop(era);
        drop(pulse);
    }
}

impl<R, P> StandbySource<R, P> {
    /// The log in this file, up to its tail, under the history of its era. Its sessions beat by this pulse. A
    /// peer may be silent for so many seconds; 0: as long as it likes.
    pub fn new(
        rt: R,
        file: File,
        tail: Arc<Tail, Global>,
        era: Arc<Era, Global>,
        pulse: Arc<P, Global>,
        timeout: u64,
    ) -> StandbySource<R, P> {
        StandbySource {
            rt,
            file,
            tail,
            era,
            pulse,
            timeout,
        }
    }
}

impl<R: Wait + Clock + Clone + Drop, P: Pulse + Drop> Serves for StandbySource<R, P> {
    // Stream also where the last adoption is not durable.
    fn serve<M: Marks, I: Read, W: Write>(
        &self,
        alloc: Global,
        marks: &mut M,
        window: u32,
        reader: &mut I,
        writer: &mut W,
    ) -> Result<u64, Fault> {
        let Some(adopted) = self.era.now(&self.rt) else {
            return Err(Fault::Stream);
        };
        let file = self.file.try_clone()?;
        let source = NodeSource::under(
            self.rt.clone()?,
            alloc,
            file,
            Arc::try_clone(&self.tail)?,
            Arc::try_clone(&self.pulse)?,
            adopted.history,
            self.timeout,
        )?;
        let mut writer = UnderEra::new(&self.rt, &self.era, adopted.number, writer);
        source.serve(alloc, marks, window, reader, &mut writer)
    }

    fn knock(&self) {
        self.tail.begin_round(&self.rt);
    }
}
