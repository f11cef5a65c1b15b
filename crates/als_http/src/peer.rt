ghost use Rattle.std.specs.Prelude.{◌≡◌, IfOk};

use crate::connections::Connections;
use crate::limits::{CROWDED, LIFE, REQUEST, RESPONSE, SILENCE};
use crate::turn::Turn;
use std::io;
use std::io::{ErrorKind, Read, Write};
use std::time::{Clock, Duration};

/// A stream whose peer has limited time. Each read of the stream waits for a tick.
#[derive(Drop)]
pub(crate) struct Peer<'a, S, C: Clock> {
    stream: S,
    clock: &'a C,
    connections: &'a Connections,
    turn: &'a Turn,
    /// When it connected, by the clock.
    begun: Duration,
}

impl<'a, S, C: Clock> Peer<'a, S, C> {
    /// The stream of a peer that has just connected.
    pub fn new(
        stream: S,
        clock: &'a C,
        connections: &'a Connections,
        turn: &'a Turn,
        begun: Duration,
    ) -> Peer<'a, S, C> {
        Peer {
            stream,
            clock,
            connections,
            turn,
            begun,
        }
    }

    /// Whether the connection ends here, between two requests: the threads are to end.
    fn has_ended(&self) -> bool {
        !self.turn.is_asking() && self.connections.is_closed()
    }

    /// Bytes of a request came. If the connection has lasted for its time, its answer is the last one. It is
    /// not closed before that: the peer may just be sending.
    fn hear(&self, now: Duration) {
        self.turn.ask(now);
        if now.saturating_sub(self.begun) >= Duration::from_millis(LIFE) {
            self.turn.end();
        }
    }

    /// Whether the time of the peer is over, if it has been silent since then.
    fn is_over(&self, since: Duration, now: Duration) -> bool {
        let patience = if self.connections.is_crowded() {
            CROWDED
        } else {
            SILENCE
        };
        self.connections.is_closed()
            || now.saturating_sub(since) >= Duration::from_millis(patience)
            || self.turn.asking(now) >= REQUEST
    }

    /// What a read returns once the time of the peer is over: an error within a request, else the end.
    fn ended(&self) -> io::Result<usize>
        ensures { IfOk result (λ count. count ≡ 0) }
    {
        if self.turn.is_asking() {
            Err(ErrorKind::TimedOut.into())
        } else {
            Ok(0)
        }
    }
}

/// Whether a read or a write only timed out.
pub(crate) fn is_late(e: &io::Error) -> bool {
    matches!(
        e.kind(),
        ErrorKind::WouldBlock | ErrorKind::TimedOut | ErrorKind::Interrupted
    )
}

impl<S: Read, C: Clock> Read for Peer<'_, S, C> {
    /// Reads from the peer: what has come is read before anybody asks for the time, since the node itself
    /// may have stood still. Once the peer's time is over: between two requests 0 bytes, as if it had hung
    /// up; within a request TimedOut.
    fn read(&mut self, into: &mut [u8]) -> io::Result<usize> {
        let mut since = self.clock.monotonic()?;
        self.turn.listen(since);
        if self.has_ended() {
            return Ok(0);
        }
        for _ in 0..u64::MAX {
            let heard = self.stream.read(into);
            let now = self.clock.monotonic()?;
            match heard {
                Ok(count) => {
                    self.hear(now);
                    // A peer that drips is never silent.
                    return if self.turn.asking(now) < REQUEST {
                        Ok(count)
                    } else {
                        Err(ErrorKind::TimedOut.into())
                    };
                }
                Err(e) if is_late(&e) => {
                    if self.turn.look(now) {
                        since = now;
                    }
                }
                Err(e) => return Err(e),
            }
            if self.is_over(since, now) {
                break;
            }
        }
        self.ended()
    }
}

impl<S: Write, C: Clock> Write for Peer<'_, S, C> {
    // What is written to the peer is what its stream is given.
    ghost contents = { λ peer. S.contents peer.stream };

    fn write(&mut self, bytes: &[u8]) -> io::Result<usize> {
        let now = self.clock.monotonic()?;
        self.turn.answer(now);
        if self.turn.answering(now) >= RESPONSE {
            return Err(ErrorKind::TimedOut.into());
        }
        let written = self.stream.write(bytes);
        // However long the peer took for these bytes, the node did not stand still.
        if let Ok(now) = self.clock.monotonic() {
            self.turn.rest(now);
        }
        written
    }

    fn flush(&mut self) -> io::Result<()> {
        self.stream.flush()
    }
}
