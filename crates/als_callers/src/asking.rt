use crate::closing::Closing;
use std::alloc::Global;
use std::io::ErrorKind;
use std::net::{IpAddr, OpenListener, OpenStream};
use std::time::{Clock, Duration};
use std::{io, thread};

/// Bytes of a question, at least. A thread reads it once these are there.
const FRONT: usize = 29;

/// The letter R: a question of this byte alone.
const RANK: u8 = 82;

/// Milliseconds within which a question has to arrive.
const QUESTION: u64 = 5_000;

/// Milliseconds between two looks at the listener and at those who are to ask.
const LOOK: u64 = 20;

/// The most callers that may be about to ask. Where more come, the first one is hung up on.
const ASKERS: usize = 64;

/// A caller: its stream, its address, and when it connected by the clock. An IPv4-mapped address is given as
/// its IPv4 address.
#[derive(Drop)]
pub struct Came<S> {
    pub stream: S,
    pub peer: IpAddr,
    pub at: Duration,
}

impl<S: OpenStream> Came<S> {
    /// Whether its question is there, or it hung up. Nothing of it is read.
    fn is_heard(&self) -> bool {
        let mut bytes = [0; FRONT];
        match self.stream.peek(&mut bytes) {
            Ok(count) => count == 0 || count >= FRONT || bytes[0] == RANK,
            Err(e) => !is_late(e.kind()),
        }
    }

    /// Whether its time to ask is over.
    fn is_over(&self, now: Duration) -> bool {
        now.saturating_sub(self.at) >= Duration::from_millis(QUESTION)
    }
}

/// Whether an error says that nothing is there yet.
fn is_late(kind: ErrorKind) -> bool {
    matches!(
        kind,
        ErrorKind::WouldBlock | ErrorKind::TimedOut | ErrorKind::Interrupted
    )
}

/// The callers of a listener that have not asked yet. The listener does not block.
pub struct Asking<'a, L: OpenListener<Stream = S>, S, C> {
    listener: &'a L,
    clock: &'a C,
    closing: &'a Closing,
    /// In the order in which they connected.
    waiting: Vec<Came<S>>,
}

impl<L: OpenListener<Stream = S>, S: Drop, C> Drop for Asking<'_, L, S, C> {
    fn drop(self) {
        let Asking {
            listener: _,
            clock: _,
            closing: _,
            waiting,
        } = self;
        drop(waiting);
    }
}

impl<'a, L: OpenListener<Stream = S>, S: OpenStream + Drop, C: Clock> Asking<'a, L, S, C> {
    /// Nobody has connected yet.
    pub fn new(
        alloc: Global,
        listener: &'a L,
        clock: &'a C,
        closing: &'a Closing,
    ) -> Asking<'a, L, S, C> {
        Asking {
            listener,
            clock,
            closing,
            waiting: Vec::new(alloc),
        }
    }

    /// Waits for the next caller whose question is there. None: nobody may come any more.
    pub fn next(&mut self) -> io::Result<Option<Came<S>>> {
        for _ in 0..u64::MAX {
            if self.closing.is_closed() {
                break;
            }
            let has_come = self.admit()?;
            if let Some(came) = self.take_heard() {
                return Ok(Some(came));
            }
            self.drop_late(self.clock.monotonic()?);
            if !has_come {
                thread::sleep(self.clock, Duration::from_millis(LOOK));
            }
        }
        Ok(None)
    }

    /// Accepts the next caller, if there is one. Returns whether there was.
    fn admit(&mut self) -> io::Result<bool> {
        let (stream, addr) = match self.listener.accept() {
            Ok(accepted) => accepted,
            // Nobody wants to connect, or the system refuses for now.
            Err(_) => return Ok(false),
        };
        if stream.set_nonblocking(true).is_ok() {
            let came = Came {
                stream,
                peer: addr.ip().to_canonical(),
                at: self.clock.monotonic()?,
            };
            // Without memory for it, it is hung up on.
            let _ = self.waiting.push(came);
        }
        Ok(true)
    }

    /// Takes out the first caller whose question is there.
    fn take_heard(&mut self) -> Option<Came<S>> {
        let at = self.waiting.iter().position(|came| came.is_heard())?;
        if at >= self.waiting.len() {
            return None;
        }
        Some(self.waiting.remove(at))
    }

    /// Hangs up on those whose time is over, and on the first one where too many are there.
    fn drop_late(&mut self, now: Duration) {
        self.waiting.retain(|came| !came.is_over(now));
        if self.waiting.len() > ASKERS {
            self.waiting.remove(0);
        }
    }
}
