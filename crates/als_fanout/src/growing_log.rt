ghost use Rattle.std.specs.Prelude.{◌≡◌, ◌≤◌, IfErr, []};
ghost use Rattle.als_wire.specs.Reading.{IsHeader};
ghost use Rattle.als_ship.specs.declared.fault.Fault.TheVariants as fault;
ghost use Rattle.als_sending.specs.Accounts.{reads_of};

use crate::naming::Naming;
use crate::stop::Stop;
use crate::strayed::Strayed;
use als_epochs::History;
use als_folder::LOG_LIMIT;
use als_record::LogHeader;
use als_sending::{Account, Growing, Grown};
use als_ship::Fault;
use std::fs::{File, OpenFile};
use std::io::ErrorKind;
use std::os::unix::fs::FileExt;
use std::rt::Files;
use std::time::{Clock, Duration};
use std::{io, thread};

/// Milliseconds after which a file at whose end a session waits is looked at again.
const NAP: u64 = 50;

/// So many of them pass at most before the last byte is sent once more.
const LONG_BEAT: u64 = 200;

/// Naps in a second.
const SECOND: u64 = 1000 / NAP;

/// After how many naps at the end of a file its last byte is sent once more, so that both ends know
/// that the other one is there: after a third of the seconds for which an end may be silent (0: as long
/// as it likes), and ten seconds at most.
pub(crate) fn beat_for(timeout: u64) -> u64 {
    if timeout == 0 {
        LONG_BEAT
    } else {
        (timeout.saturating_mul(SECOND) / 3).min(LONG_BEAT)
    }
}

/// A log file that may grow, of a node before which there was no takeover. Only its header is looked
/// at.
pub(crate) struct GrowingLog<'a, C, N> {
    clock: &'a C,
    /// Whether its path still names it.
    naming: N,
    file: File,
    header: LogHeader,
    /// How long it was at least.
    len: u64,
    /// The end that was told last.
    shown: u64,
    /// How many naps a session waits at its end before it gives a sign. None: it does not wait.
    beat: Option<u64>,
    /// Whether nobody waits any more.
    stop: &'a Stop,
    /// Why it is no longer the file that it was, if it is not.
    strayed: Option<Strayed>,
    is_told: bool,
    /// What was read of it.
    account: Account,
    ghost range: { IsHeader header },
}

impl<C, N: Drop> Drop for GrowingLog<'_, C, N> {
    fn drop(self) {
        let GrowingLog {
            clock: _,
            naming,
            file,
            header: _,
            len: _,
            shown: _,
            beat: _,
            stop: _,
            strayed: _,
            is_told: _,
            account: _,
        } = self;
        drop(naming);
        drop(file);
    }
}

/// A log file that was opened, the header with which it begins, and how long it is.
pub(crate) struct Opened {
    pub file: File,
    pub header: LogHeader,
    pub len: u64,
    ghost range: { IsHeader header },
}

impl Drop for Opened {
    fn drop(self) {
        let Opened {
            file,
            header: _,
            len: _,
        } = self;
        drop(file);
    }
}

impl Opened {
    /// The file, its header and its length.
    pub fn parts(self) -> (File, LogHeader, u64)
        ensures header { IsHeader result.1 }
    {
        let Opened { file, header, len } = self;
        (file, header, len)
    }
}

/// Opens a log file. BadHeader: it begins with no header. Stream: it can't be read.
pub(crate) fn open_log<R: Files<File = File>>(rt: &R, path: &str) -> Result<Opened, Fault> {
    let file = File::open(rt, path)?;
    let mut front = [0; 16];
    let len = file.metadata()?.len();
    if len < 16 {
        return Err(Fault::BadHeader);
    }
    file.read_exact_at(&mut front, 0)?;
    match LogHeader::decode(&front) {
        Ok(Some(header)) => Ok(Opened { file, header, len }),
        Ok(None) | Err(_) => Err(Fault::BadHeader),
    }
}

impl<'a, C, N> GrowingLog<'a, C, N> {
    /// The log of a file that was opened, at whose end a session waits for so many naps before it gives a
    /// sign; without any it ends there.
    pub fn new(
        clock: &'a C,
        naming: N,
        opened: Opened,
        beat: Option<u64>,
        stop: &'a Stop,
    ) -> GrowingLog<'a, C, N> {
        let (file, header, len) = opened.parts();
        GrowingLog {
            clock,
            naming,
            file,
            header,
            len,
            shown: 0,
            beat,
            stop,
            strayed: None,
            is_told: false,
            account: Account::Nothing,
        }
    }

    /// How long it was at least.
    pub fn len(&self) -> u64 {
        self.len
    }
}

impl<C, N: Naming> GrowingLog<'_, C, N> {
    /// Why it is no longer the file that it was, where that was not printed yet.
    pub fn told_once(&mut self) -> Option<Strayed>
        ensures { self.new.account ≡ self.old.account }
    {
        if self.is_told {
            return None;
        }
        self.is_told = self.strayed.is_some();
        self.strayed
    }

    /// How much of it is served now. Stream: it strayed, and `strayed` has how.
    fn served(&mut self) -> Result<u64, Fault>
        ensures account { self.new.account ≡ self.old.account }
        ensures shown { self.new.shown ≡ self.old.shown }
        ensures header { self.new.header ≡ self.old.header }
        ensures fails { IfErr result (λ f. f ≡ fault.Stream) }
    {
        match self.look() {
            Ok(len) => {
                self.len = len;
                if len > LOG_LIMIT {
                    self.strayed = Some(Strayed::TooLong);
                }
                Ok(len.min(LOG_LIMIT))
            }
            Err(why) => {
                self.stray(why);
                Err(Fault::Stream)
            }
        }
    }

    /// It is no longer the file that it was.
    fn stray(&mut self, why: Strayed)
        ensures account { self.new.account ≡ self.old.account }
        ensures shown { self.new.shown ≡ self.old.shown }
        ensures header { self.new.header ≡ self.old.header }
    {
        self.strayed = Some(why);
        self.is_told = false;
    }

    /// How long it is, where its path still names it.
    fn look(&self) -> Result<u64, Strayed> {
        let Ok(held) = self.file.metadata() else {
            return Err(Strayed::Unreadable);
        };
        self.naming.check(&held)?;
        let len = held.len();
        if len < self.len {
            return Err(Strayed::Shrank);
        }
        Ok(len)
    }
}

impl<C: Clock, N: Naming> Growing for GrowingLog<'_, C, N> {
    ghost reads = { λ log. reads_of log.account };

    ghost seals = { λ _. [] };

    ghost pages = { λ log. log.header.pages };

    ghost shown = { λ log. log.shown };

    fn header(&self) -> LogHeader {
        self.header
    }

    fn history(&self) -> History {
        History::empty()
    }

    fn end(&mut self) -> Result<u64, Fault> {
        let end = self.served()?;
        self.shown = end.max(self.shown);
        Ok(self.shown)
    }

    fn wait_past(&mut self, at: u64) -> Result<Grown, Fault> {
        let Some(beat) = self.beat else {
            return Ok(if self.served()? > at {
                Grown::Past
            } else {
                Grown::Ends
            });
        };
        let knocks = self.stop.knocks();
        for _ in 0..beat.max(1) {
            if self.served()? > at {
                return Ok(Grown::Past);
            }
            if self.stop.is_set() {
                return Ok(Grown::Ends);
            }
            if self.stop.knocks() != knocks {
                break;
            }
            thread::sleep(self.clock, Duration::from_millis(NAP));
        }
        Ok(Grown::Beat)
    }

    fn read_at(&mut self, at: u64, buf: &mut [u8]) -> Result<(), Fault> {
        match self.file.read_exact_at(buf, at) {
            Ok(()) => {
                self.account.read(at, buf);
                Ok(())
            }
            Err(e) => {
                self.stray(of_read(&e));
                Err(Fault::Stream)
            }
        }
    }
}

/// Why bytes that were there are not read.
fn of_read(e: &io::Error) -> Strayed {
    match e.kind() {
        ErrorKind::UnexpectedEof => Strayed::Shrank,
        _ => Strayed::Unreadable,
    }
}
