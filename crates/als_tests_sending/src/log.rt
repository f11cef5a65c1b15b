ghost use Rattle.std.specs.Prelude.{ℕ};
ghost use Rattle.als_sending.specs.Accounts.{reads_of};

use als_epochs::History;
use als_record::{LogHeader, Lsn};
use als_sending::{Account, Growing, Grown};
use als_ship::Fault;
use std::alloc::Global;

/// The header of each log here.
pub const HEADER: LogHeader = LogHeader { pages: 4 };

/// What happens once a session waits.
#[derive(Clone, Copy)]
pub enum Step {
    /// The log may be read up to here.
    Grows(u64),
    /// Nothing.
    Beats,
}

/// A log in memory. What comes where a session waits is written in a script, at whose end the log
/// ends.
pub struct Log {
    bytes: Vec<u8>,
    history: History,
    until: u64,
    shown: u64,
    script: &'static [Step],
    account: Account,
    /// Reads fail from here on.
    pub fails_from: u64,
    pub beats: bool,
}

impl Drop for Log {
    fn drop(self) {
        let Log {
            bytes,
            history: _,
            until: _,
            shown: _,
            script: _,
            account: _,
            fails_from: _,
            beats: _,
        } = self;
        drop(bytes);
    }
}

/// Bytes of a text: each is its offset, modulo 251. `None`: allocation failed.
pub fn text(alloc: Global, len: u32) -> Option<Vec<u8>> {
    let mut bytes = Vec::new(alloc);
    bytes.reserve(len as usize).ok()?;
    for at in 0..len {
        bytes.push((at % 251) as u8).ok()?;
    }
    Some(bytes)
}

/// The history with a seal at 100.
pub fn sealed() -> History {
    match History::of(&[Lsn(100)]) {
        Some(history) => history,
        None => History::empty(),
    }
}

impl Log {
    /// A log of that history, of which so much may be read at first.
    pub fn new(bytes: Vec<u8>, until: u64, script: &'static [Step]) -> Log {
        Log {
            bytes,
            history: sealed(),
            until,
            shown: 0,
            script,
            account: Account::Nothing,
            fails_from: u64::MAX,
            beats: true,
        }
    }
}

impl Growing for Log {
    ghost reads = { λ log. reads_of log.account };

    ghost seals = { λ log. log.history };

    ghost pages = { λ _. 4 };

    ghost shown = { λ log. log.shown };

    fn header(&self) -> LogHeader {
        HEADER
    }

    fn history(&self) -> History {
        self.history
    }

    fn end(&mut self) -> Result<u64, Fault> {
        self.shown = self.shown.max(self.until);
        Ok(self.shown)
    }

    fn wait_past(&mut self, at: u64) -> Result<Grown, Fault> {
        let Some((step, rest)) = self.script.split_first() else {
            return Ok(Grown::Ends);
        };
        self.script = rest;
        match step {
            Step::Grows(until) => {
                self.until = *until;
                Ok(if *until > at {
                    Grown::Past
                } else {
                    Grown::Beat
                })
            }
            Step::Beats => Ok(Grown::Beat),
        }
    }

    fn beats(&self) -> bool {
        self.beats
    }

    fn read_at(&mut self, at: u64, buf: &mut [u8]) -> Result<(), Fault> {
        let from = at as usize;
        if at >= self.fails_from {
            return Err(Fault::Stream);
        }
        let to = from.saturating_add(buf.len());
        let Some(bytes) = self.bytes.get(from..to) else {
            return Err(Fault::Stream);
        };
        if bytes.len() != buf.len() {
            return Err(Fault::Stream);
        }
        buf.copy_from_slice(bytes);
        self.account.read(at, buf);
        Ok(())
    }
}
