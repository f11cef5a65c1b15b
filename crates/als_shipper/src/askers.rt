use crate::asker::{Asker, Asks};
use als_operate::bound;
use std::alloc::Global;
use std::io::ErrorKind;
use std::net::{OpenListener, OpenStream};
use std::time::{Clock, Duration};
use std::{io, thread};

/// Milliseconds in which a question has to be whole.
const QUESTION: u64 = 5_000;

/// Milliseconds after which those who are to ask are looked at again.
const LOOK: u64 = 20;

/// So many may be about to ask. Where more come, the first of them is taken as it is.
const ASKERS: usize = 64;

/// Those who connected to a listener and are to ask. Whoever is slow to ask holds up nobody: the first
/// whose question is whole is taken.
#[derive(Drop)]
pub(crate) struct Askers<'a, L: OpenListener<Stream = S>, S, C> {
    listener: &'a L,
    clock: &'a C,
    /// How long a connection may be silent, and a frame may take. None: as long as it likes.
    silence: Option<Duration>,
    /// The first who came stands in front.
    waiting: Vec<Asker<S>>,
}

impl<'a, L: OpenListener<Stream = S>, S, C> Askers<'a, L, S, C> {
    /// Nobody has come yet.
    pub fn new(
        alloc: Global,
        listener: &'a L,
        clock: &'a C,
        silence: Option<Duration>,
    ) -> Askers<'a, L, S, C> {
        Askers {
            listener,
            clock,
            silence,
            waiting: Vec::new(alloc),
        }
    }
}

impl<L: OpenListener<Stream = S>, S: OpenStream + Drop, C: Clock> Askers<'_, L, S, C> {
    /// The next who has asked, or did not in time, how long a frame of it may take, and what it asks for.
    pub fn next(&mut self) -> io::Result<(S, Option<Duration>, Asks)> {
        for _ in 0..u64::MAX {
            let has_come = self.admit()?;
            let now = self.clock.monotonic()?;
            let heard = self.waiting.iter().position(|asker| asker.is_heard());
            if let Some(at) = heard {
                return self.take(at);
            }
            let is_over = match self.waiting.first() {
                Some(first) => first.age(now) >= Duration::from_millis(QUESTION),
                None => false,
            };
            if is_over || self.waiting.len() > ASKERS {
                return self.take(0);
            }
            if !has_come {
                thread::sleep(self.clock, Duration::from_millis(LOOK));
            }
        }
        Err(ErrorKind::TimedOut.into())
    }

    /// Takes in the next who connects, which it waits for where nobody is to ask. It answers whether one
    /// came.
    fn admit(&mut self) -> io::Result<bool> {
        self.listener.set_nonblocking(!self.waiting.is_empty())?;
        let stream = match self.listener.accept() {
            Ok((stream, _)) => stream,
            Err(e) if e.kind() == ErrorKind::WouldBlock => return Ok(false),
            Err(e) => return Err(e),
        };
        stream.set_nonblocking(true)?;
        let came = self.clock.monotonic()?;
        self.waiting.push(Asker::new(stream, came))?;
        Ok(true)
    }

    /// The stream of one of them. A question that is not whole by now is read no further.
    fn take(&mut self, at: usize) -> io::Result<(S, Option<Duration>, Asks)> {
        if at >= self.waiting.len() {
            return Err(ErrorKind::NotFound.into());
        }
        let asker = self.waiting.remove(at);
        let is_whole = asker.is_heard();
        let asks = asker.asks();
        let stream = asker.end();
        stream.set_nonblocking(false)?;
        let limit = if is_whole {
            self.silence
        } else {
            Some(Duration::from_millis(1))
        };
        bound(&stream, limit)?;
        Ok((stream, limit, asks))
    }
}
