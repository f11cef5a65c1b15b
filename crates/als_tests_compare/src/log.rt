ghost use Rattle.std.specs.Prelude.{[], ◌∷◌};
ghost use Rattle.als_sending.specs.Accounts.{reads_of};

use als_compare::{Summary, Summing};
use als_epochs::History;
use als_record::{LogHeader, Lsn};
use als_sending::{Account, Growing, Grown, Heard, Marks};
use als_ship::Fault;
use std::alloc::Global;

/// A log in memory, of a node whose history has a seal at 100.
pub struct Log {
    bytes: Vec<u8>,
    shown: u64,
    account: Account,
}

impl Drop for Log {
    fn drop(self) {
        let Log {
            bytes,
            shown: _,
            account: _,
        } = self;
        drop(bytes);
    }
}

/// Bytes of a text: each is its offset, modulo 251. `None`: allocation failed.
pub fn text(alloc: Global, len: u32) -> Option<Vec<u8>> {
    let mut bytes = Vec::new(alloc);
    bytes.reserve(len as usize).ok()?;
    for at in 0..len {
        bytes.push((at % 251) as u8).ok()?;
    }
    Some(bytes)
}

/// The summary of these bytes, held in this epoch.
pub fn summary(bytes: &[u8], epoch: u32) -> Summary {
    let mut summing = Summing::new();
    summing.add(bytes);
    summing.summary(epoch)
}

impl Log {
    /// A log of these bytes.
    pub fn new(bytes: Vec<u8>) -> Log {
        Log {
            bytes,
            shown: 0,
            account: Account::Nothing,
        }
    }
}

impl Growing for Log {
    ghost reads = { λ log. reads_of log.account };

    ghost seals = { λ _. 100 ∷ [] };

    ghost pages = { λ _. 4 };

    ghost shown = { λ log. log.shown };

    fn header(&self) -> LogHeader {
        LogHeader { pages: 4 }
    }

    fn history(&self) -> History {
        let mut history = History::empty();
        history.push(Lsn(100));
        history
    }

    fn end(&mut self) -> Result<u64, Fault> {
        self.shown = self.shown.max(self.bytes.len() as u64);
        Ok(self.shown)
    }

    fn wait_past(&mut self, _at: u64) -> Result<Grown, Fault> {
        Ok(Grown::Ends)
    }

    fn read_at(&mut self, at: u64, buf: &mut [u8]) -> Result<(), Fault> {
        let from = at as usize;
        let to = from.saturating_add(buf.len());
        let Some(bytes) = self.bytes.get(from..to) else {
            return Err(Fault::Stream);
        };
        if bytes.len() != buf.len() {
            return Err(Fault::Stream);
        }
        buf.copy_from_slice(bytes);
        self.account.read(at, buf);
        Ok(())
    }
}

/// Whether a session began.
pub struct Began {
    pub from: Option<Lsn>,
    heard: Heard,
}

impl Drop for Began {
    fn drop(self) {
        let Began { from: _, heard: _ } = self;
    }
}

impl Began {
    /// None did.
    pub fn new() -> Began {
        Began {
            from: None,
            heard: Heard::Nothing,
        }
    }
}

impl Marks for Began {
    ghost use Rattle.std.specs.Prelude.{Some};
    ghost use Rattle.als_sending.specs.Accounts.{heard_of, begun_of};

    ghost heard = { λ began. heard_of began.heard };

    ghost begun = { λ began. Some (begun_of began.heard) };

    fn begin(&mut self, from: Lsn) {
        self.from = Some(from);
        self.heard.begin(from);
    }

    fn send(&mut self) {}

    fn acknowledge(&mut self, lsn: Lsn) {
        self.heard.acknowledge(lsn);
    }
}
