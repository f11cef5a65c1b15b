ghost use Rattle.std.specs.Prelude.{◌≤◌};

use crate::beside::Beside;
use crate::hold::{Hold, Log, Opened};
use crate::noted::Noted;
use crate::outbox::Outbox;
use crate::outcome::Outcome;
use crate::question::Question;
use als_engine::Events;
use als_folder::Folder;
use als_followers::{NodeSource, Serves, Tail};
use als_operate::{Fault, PENDING, named, reopen};
use als_record::Lsn;
use als_sending::Marks;
use als_ship::Fault as SessionFault;
use std::alloc::{AllocError, Global};
use std::fs::{File, OpenFile};
use std::io::{Read, Write};
use std::rt::Files;
use std::sync::{Arc, Wait};
use std::time::Clock;

/// The log of a node's folder that several sessions send. The thread that prints opens the folder: it is held
/// from the first session on, and free once none goes on.
pub(crate) struct NodeFolder<R> {
    rt: R,
    hold: Arc<Hold<R>, Global>,
    outbox: Arc<Outbox, Global>,
}

impl<R: Drop> Drop for NodeFolder<R> {
    fn drop(self) {
        let NodeFolder { rt, hold, outbox } = self;
        drop(rt);
        drop(hold);
        drop(outbox);
    }
}

impl<R> NodeFolder<R> {
    /// This folder.
    pub fn new(rt: R, hold: Arc<Hold<R>, Global>, outbox: Arc<Outbox, Global>) -> NodeFolder<R> {
        NodeFolder { rt, hold, outbox }
    }
}

impl<R: Wait + Clock + Clone + Drop> NodeFolder<R> {
    /// Sends its log to one who has asked. Nothing is sent where it gave none.
    fn send<M: Marks, I: Read, W: Write>(
        &self,
        alloc: Global,
        marks: &mut M,
        window: u32,
        reader: &mut I,
        writer: &mut W,
    ) -> Result<u64, SessionFault>
        requires some { 1 ≤ window }
        requires few { window ≤ 64 }
    {
        let Some(log) = self.hold.wait(&self.rt) else {
            return Err(SessionFault::Stream);
        };
        let mut noted = Noted::new(marks);
        let served = log.serve(alloc, &mut noted, window, reader, writer);
        let outcome = Outcome::of(served, noted.has_begun(), noted.acknowledged());
        drop(log);
        self.outbox.put(&self.rt, outcome);
        served
    }
}

impl<R: Wait + Clock + Clone + Drop> Serves for NodeFolder<R> {
    // The question comes first: the folder is held for those who ask alone, and opening it takes its time.
    fn serve<M: Marks, I: Read, W: Write>(
        &self,
        alloc: Global,
        marks: &mut M,
        window: u32,
        reader: &mut I,
        writer: &mut W,
    ) -> Result<u64, SessionFault> {
        let question = match Question::read(reader) {
            Ok(question) => question,
            Err(e) => {
                let fault = SessionFault::from(e);
                self.outbox.put(&self.rt, Outcome::PassedOver(fault));
                return Err(fault);
            }
        };
        self.hold.ask(&self.rt);
        self.outbox.put(&self.rt, Outcome::Asked);
        let mut asked = question.as_slice().chain(reader);
        let served = self.send(alloc, marks, window, &mut asked, writer);
        self.hold.leave(&self.rt);
        served
    }
}

/// The log of a folder's node, as far as it is acknowledged.
fn log_of<R: AllocGlobal + Files<File = File> + Wait + Clone + Drop>(
    rt: &R,
    folder: &Folder,
    timeout: u64,
) -> Result<Log<R>, Fault> {
    let alloc = rt.alloc();
    let engine = reopen(rt, folder, PENDING)?;
    let history = engine.history();
    let tail = whole_tail(rt, alloc, engine.status().acknowledged)?;
    drop(engine);
    let file = folder.open_to_read(rt)?.log.try_clone()?;
    let source = NodeSource::new(rt.clone()?, alloc, file, tail, history, timeout)?;
    let Ok(log) = Arc::new(alloc, source) else {
        return Err(Fault::Memory);
    };
    Ok(log)
}

/// The tail of a log that does not grow.
fn whole_tail<R: Wait>(rt: &R, alloc: Global, end: Lsn) -> Result<Arc<Tail, Global>, AllocError> {
    let tail = Arc::new(alloc, Tail::new(end))?;
    tail.close(rt);
    Ok(tail)
}

/// Holds a folder, and opens its node's log.
fn open<R: AllocGlobal + Files<File = File> + Wait + Clone + Drop>(
    rt: &R,
    dir: &str,
    timeout: u64,
) -> Result<Opened<R>, Fault> {
    let folder = Folder::hold(rt, dir)?;
    match log_of(rt, &folder, timeout) {
        Ok(log) => Ok(Opened { folder, log }),
        Err(fault) => Err(named(&folder, fault)),
    }
}

/// A folder that is opened for the sessions that want it. A peer may be silent for so many seconds; 0: as long
/// as it likes.
pub(crate) struct FolderOpener<'a, R> {
    pub rt: &'a R,
    pub dir: &'a str,
    pub timeout: u64,
    pub hold: Arc<Hold<R>, Global>,
}

impl<R: Drop> Drop for FolderOpener<'_, R> {
    fn drop(self) {
        let FolderOpener {
            rt: _,
            dir: _,
            timeout: _,
            hold,
        } = self;
        drop(hold);
    }
}

impl<R: AllocGlobal + Files<File = File> + Wait + Clone + Drop> Beside for FolderOpener<'_, R> {
    fn turn(&mut self) -> Option<Outcome> {
        if !self.hold.is_awaited(self.rt) {
            return None;
        }
        match open(self.rt, self.dir, self.timeout) {
            Ok(opened) => {
                self.hold.give(self.rt, Some(opened));
                None
            }
            Err(fault) => {
                self.hold.give(self.rt, None);
                Some(Outcome::Closed(fault))
            }
        }
    }

    fn end(&mut self) {
        self.hold.close(self.rt);
    }
}
