ghost use Rattle.std.specs.Prelude.{◌≡◌, ◌≤◌, IfOk};
ghost use Rattle.als_wire.specs.Reading.{IsHeader};
ghost use Rattle.als_sending.specs.declared.account.Account.TheVariants as account;
ghost use Rattle.als_followers.specs.Serving.{IsOfSession, EndsSession};

use crate::pulse::{Always, Pulse};
use crate::serves::Serves;
use als_comparing::serve_log;
use als_epochs::History;
use als_quorum::Tail;
use als_record::LogHeader;
use als_sending::{Account, Growing, Grown, Marks};
use als_ship::Fault;
use std::alloc::Global;
use std::io::{Read, Write};
use std::os::unix::fs::FileExt;
use std::sync::{Arc, Wait};
use std::time::{Clock, Duration};

/// Seconds of a beat, at most.
const LONGEST: u64 = 10;

/// The log of a node whose file its leader writes. Offset o of the log is offset o of the file, and below
/// the tail each byte is durable and stays as it is. That a read of the file there gives these bytes is
/// a premise: no clause can say it of a file.
pub struct NodeLog<R, F, P = Always> {
    rt: R,
    file: Arc<F, Global>,
    tail: Arc<Tail, Global>,
    pulse: Arc<P, Global>,
    header: LogHeader,
    history: History,
    /// For how long it is waited for at most.
    beat: Duration,
    /// The end that was told last.
    shown: u64,
    /// The tail's round when the last bytes were read, or when it was waited for last.
    round: u64,
    /// What was read, for clauses alone.
    account: Account,
    ghost range: { IsHeader header },
}

impl<R: Drop, F: Drop, P: Drop> Drop for NodeLog<R, F, P> {
    fn drop(self) {
        let NodeLog {
            rt,
            file,
            tail,
            pulse,
            header: _,
            history: _,
            beat: _,
            shown: _,
            round: _,
            account,
        } = self;
        drop(rt);
        drop(file);
        drop(tail);
        drop(pulse);
        drop(account);
    }
}

impl<R: Wait + Clock, F: FileExt + Drop, P: Pulse + Drop> Growing for NodeLog<R, F, P> {
    ghost use Rattle.als_sending.specs.Accounts.{reads_of};

    ghost reads = { λ log. reads_of log.account };

    ghost seals = { λ log. log.history };

    ghost pages = { λ log. log.header.pages };

    ghost shown = { λ log. log.shown };

    fn header(&self) -> LogHeader {
        self.header
    }

    fn history(&self) -> History {
        self.history
    }

    fn end(&mut self) -> Result<u64, Fault> {
        let reach = self.tail.reach(&self.rt);
        self.shown = self.shown.max(reach.end.0);
        Ok(self.shown)
    }

    fn wait_past(&mut self, at: u64) -> Result<Grown, Fault> {
        let reach = self.tail.wait_past(&self.rt, at, self.round, self.beat);
        self.round = self.tail.round(&self.rt);
        let grown = if reach.end.0 > at {
            Grown::Past
        } else if reach.is_closed {
            Grown::Ends
        } else {
            Grown::Beat
        };
        Ok(grown)
    }

    fn beats(&self) -> bool {
        self.pulse.beats()
    }

    fn read_at(&mut self, at: u64, buf: &mut [u8]) -> Result<(), Fault> {
        self.round = self.tail.round(&self.rt);
        match self.file.read_exact_at(buf, at) {
            Ok(()) => {
                self.account.read(at, buf);
                Ok(())
            }
            Err(_) => Err(Fault::Stream),
        }
    }
}

/// What sessions read a node's log from: its file, which they share, and its tail.
pub struct NodeSource<R, F, P = Always> {
    rt: R,
    file: Arc<F, Global>,
    tail: Arc<Tail, Global>,
    pulse: Arc<P, Global>,
    header: LogHeader,
    history: History,
    beat: Duration,
    ghost range: { IsHeader header },
}

impl<R: Drop, F: Drop, P: Drop> Drop for NodeSource<R, F, P> {
    fn drop(self) {
        let NodeSource {
            rt,
            file,
            tail,
            pulse,
            header: _,
            history: _,
            beat: _,
        } = self;
        drop(rt);
        drop(file);
        drop(tail);
        drop(pulse);
    }
}

impl<R: Drop, F: FileExt + Drop> NodeSource<R, F> {
    /// The log of this file, up to its tail. A session waits for a third of the time for which its peer may
    /// be silent, and for ten seconds at most, before it beats.
    ///
    /// BadHeader: the file does not begin with a log's header. Stream: it can't be read. Memory: allocation
    /// failed.
    pub fn new(
        rt: R,
        alloc: Global,
        file: F,
        tail: Arc<Tail, Global>,
        history: History,
        timeout: u64,
    ) -> Result<NodeSource<R, F>, Fault>
        ensures history { IfOk result (λ source. source.history ≡ history) }
    {
        let Ok(always) = Arc::new(alloc, Always) else {
            return Err(Fault::Memory);
        };
        NodeSource::under(rt, alloc, file, tail, always, history, timeout)
    }
}

impl<R: Drop, F: FileExt + Drop, P: Pulse + Drop> NodeSource<R, F, P> {
    /// The same log, whose sessions beat by this pulse. Where it does not, a session ends in place of a beat.
    ///
    /// As `new` says.
    pub fn under(
        rt: R,
        alloc: Global,
        file: F,
        tail: Arc<Tail, Global>,
        pulse: Arc<P, Global>,
        history: History,
        timeout: u64,
    ) -> Result<NodeSource<R, F, P>, Fault>
        ensures history { IfOk result (λ source. source.history ≡ history) }
    {
        let header = header_of(&file)?;
        let Ok(file) = Arc::new(alloc, file) else {
            return Err(Fault::Memory);
        };
        Ok(NodeSource {
            rt,
            file,
            tail,
            pulse,
            header,
            history,
            beat: beat_for(timeout),
        })
    }
}

/// The header with which a log's file begins.
fn header_of<F: FileExt>(file: &F) -> Result<LogHeader, Fault>
    ensures { IfOk result IsHeader }
{
    let mut front = [0; 16];
    file.read_exact_at(&mut front, 0)?;
    match LogHeader::decode(&front) {
        Ok(Some(header)) => Ok(header),
        Ok(None) | Err(_) => Err(Fault::BadHeader),
    }
}

/// How long a session waits before it beats, where its peer may be silent for so many seconds; 0: as long
/// as it likes.
fn beat_for(timeout: u64) -> Duration {
    if timeout == 0 {
        return Duration::from_secs(LONGEST);
    }
    Duration::from_millis((timeout.saturating_mul(1_000) / 3).min(LONGEST * 1_000))
}

impl<R: Wait + Clock + Clone + Drop, F: FileExt + Drop, P: Pulse + Drop> NodeSource<R, F, P> {
    /// The log, for one session: of the same header and history, and nothing of it was read.
    fn open(&self) -> Result<NodeLog<R, F, P>, Fault>
        ensures header { IfOk result (λ log. log.header ≡ self.now.header) }
        ensures history { IfOk result (λ log. log.history ≡ self.now.history) }
        ensures unread { IfOk result (λ log. log.account ≡ account.Nothing) }
    {
        Ok(NodeLog {
            rt: self.rt.clone()?,
            file: Arc::try_clone(&self.file)?,
            tail: Arc::try_clone(&self.tail)?,
            pulse: Arc::try_clone(&self.pulse)?,
            header: self.header,
            history: self.history,
            beat: self.beat,
            shown: 0,
            round: 0,
            account: Account::Nothing,
        })
    }

    /// Sends it to one who came, or answers what log it is.
    fn send<M: Marks, I: Read, W: Write>(
        &self,
        alloc: Global,
        marks: &mut M,
        window: u32,
        reader: &mut I,
        writer: &mut W,
    ) -> Result<u64, Fault>
        requires some { 1 ≤ window }
        requires few { window ≤ 64 }
        // Whatever ends it, what was acknowledged are the answers that were read, and nothing else.
        ensures session { IsOfSession window self.now.header.pages self.now.history
            (I.remaining reader.old) (M.heard marks.old) (M.heard marks.new) (M.begun marks.old)
            (M.begun marks.new) (W.contents writer.old) (W.contents writer.new) }
        // Where it ends well, a question was answered; or the log was sent from where the follower goes on
        // up to some end, and each frame was answered.
        ensures sent { IfOk result (λ n. EndsSession self.now.header.pages self.now.history
            (I.remaining reader.old) (I.remaining reader.new) (M.heard marks.old)
            (M.heard marks.new) (M.begun marks.old) (M.begun marks.new) (W.contents writer.old)
            (W.contents writer.new) n) }
    {
        let mut log = self.open()?;
        serve_log(alloc, &mut log, marks, window, reader, writer)
    }
}

impl<R: Wait + Clock + Clone + Drop, F: FileExt + Drop, P: Pulse + Drop> Serves
    for NodeSource<R, F, P> {
    fn serve<M: Marks, I: Read, W: Write>(
        &self,
        alloc: Global,
        marks: &mut M,
        window: u32,
        reader: &mut I,
        writer: &mut W,
    ) -> Result<u64, Fault> {
        self.send(alloc, marks, window, reader, writer)
    }

    fn knock(&self) {
        self.tail.begin_round(&self.rt);
    }
}
