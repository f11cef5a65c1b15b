ghost use Rattle.std.specs.Prelude.{◌≤◌};
ghost use Rattle.als_wire.specs.Reading.{IsHeader};

use crate::beside::Beside;
use crate::growing_log::{GrowingLog, Opened};
use crate::naming::{ByPath, Elsewhere, Naming};
use crate::noted::Noted;
use crate::outbox::Outbox;
use crate::outcome::Outcome;
use crate::stop::Stop;
use crate::strayed::Strayed;
use als_comparing::serve_log;
use als_followers::Serves;
use als_record::LogHeader;
use als_sending::Marks;
use als_ship::Fault;
use std::alloc::Global;
use std::fs::{File, OpenFile};
use std::io::{Read, Write};
use std::rt::Files;
use std::sync::atomic::{AtomicU64, Ordering};
use std::sync::{Arc, Wait};
use std::time::Clock;

/// A log file that several sessions send, each by a descriptor of its own. It may grow. Whether its path still
/// names it the thread that prints looks at.
pub(crate) struct LogFile<R> {
    rt: R,
    file: File,
    header: LogHeader,
    /// How long it was at least.
    len: AtomicU64,
    /// How many naps a session waits at its end before it gives a sign. None: it does not wait.
    beat: Option<u64>,
    stop: Arc<Stop, Global>,
    outbox: Arc<Outbox, Global>,
    ghost range: { IsHeader header },
}

impl<R: Drop> Drop for LogFile<R> {
    fn drop(self) {
        let LogFile {
            rt,
            file,
            header: _,
            len: _,
            beat: _,
            stop,
            outbox,
        } = self;
        drop(rt);
        drop(file);
        drop(stop);
        drop(outbox);
    }
}

impl<R> LogFile<R> {
    /// The log of a file that was opened, at whose end a session waits for so many naps before it gives a
    /// sign; without any it ends there.
    pub fn new(
        rt: R,
        opened: Opened,
        beat: Option<u64>,
        stop: Arc<Stop, Global>,
        outbox: Arc<Outbox, Global>,
    ) -> LogFile<R> {
        let (file, header, len) = opened.parts();
        LogFile {
            rt,
            file,
            header,
            len: AtomicU64::new(len),
            beat,
            stop,
            outbox,
        }
    }
}

impl<R: Wait + Clock> LogFile<R> {
    /// Sends it over two streams, or answers what log it is. als_comparing's clauses hold of it, over what this
    /// session reads.
    fn send<M: Marks, I: Read, W: Write>(
        &self,
        alloc: Global,
        marks: &mut M,
        window: u32,
        reader: &mut I,
        writer: &mut W,
    ) -> Result<u64, Fault>
        requires some { 1 ≤ window }
        requires few { window ≤ 64 }
    {
        let opened = Opened {
            file: self.file.try_clone()?,
            header: self.header,
            len: self.len.load(Ordering::SeqCst),
        };
        let mut log = GrowingLog::new(&self.rt, Elsewhere, opened, self.beat, &self.stop);
        let served = serve_log(alloc, &mut log, marks, window, reader, writer);
        self.len.fetch_max(log.len(), Ordering::SeqCst);
        if let Some(why) = log.told_once() {
            self.outbox.put(&self.rt, Outcome::Strayed(why));
        }
        served
    }
}

impl<R: Wait + Clock> Serves for LogFile<R> {
    fn serve<M: Marks, I: Read, W: Write>(
        &self,
        alloc: Global,
        marks: &mut M,
        window: u32,
        reader: &mut I,
        writer: &mut W,
    ) -> Result<u64, Fault> {
        let mut noted = Noted::new(marks);
        let served = self.send(alloc, &mut noted, window, reader, writer);
        let outcome = Outcome::of(served, noted.has_begun(), noted.acknowledged());
        self.outbox.put(&self.rt, outcome);
        served
    }

    fn knock(&self) {
        self.stop.knock();
    }
}

/// The file of a log, and the path that is to name it.
#[derive(Drop)]
pub(crate) struct NamedFile<'a, R> {
    pub file: File,
    pub path: ByPath<'a, R>,
}

impl<R: Files<File = File>> NamedFile<'_, R> {
    /// Why it is no longer named, if it is not.
    fn check(&self) -> Result<(), Strayed> {
        match self.file.metadata() {
            Ok(held) => self.path.check(&held),
            Err(_) => Err(Strayed::Unreadable),
        }
    }
}

impl<R: Files<File = File>> Beside for NamedFile<'_, R> {
    fn turn(&mut self) -> Option<Outcome> {
        match self.check() {
            Ok(()) => None,
            Err(why) => Some(Outcome::Strayed(why)),
        }
    }

    fn end(&mut self) {}
}
