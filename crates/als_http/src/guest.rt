use crate::limits::STILL;
use crate::peer::is_late;
use als_keys::number;
use std::alloc::Global;
use std::io;
use std::io::{Read, Write};
use std::net::{OpenStream, Shutdown};
use std::time::Duration;

/// What ends the head of a request.
const END: &[u8] = b"\r\n\r\n";

/// The field that has the length of a body.
const LENGTH: &[u8] = b"content-length:";

/// What a request that reads begins with.
const READS: [&[u8]; 3] = [b"GET ", b"HEAD ", b"POST /read "];

/// A connection that no thread waits for: its stream does not block.
pub(crate) struct Guest<T> {
    stream: T,
    said: Vec<u8>,
    /// The most bytes of a request.
    limit: usize,
    /// When it connected, by the clock.
    begun: Duration,
    /// When its thread last looked at it.
    looked: Duration,
    is_answered: bool,
}

impl<T: Drop> Drop for Guest<T> {
    fn drop(self) {
        let Guest {
            stream,
            said,
            limit: _,
            begun: _,
            looked: _,
            is_answered: _,
        } = self;
        drop(stream);
        drop(said);
    }
}

/// What a guest has sent so far.
pub(crate) enum Heard {
    /// A whole request, or more bytes than a request may have.
    All,
    /// A part of a request.
    Part,
    /// It hung up.
    Gone,
}

impl<T> Guest<T> {
    /// A guest that has just connected. Its request has at most this many bytes.
    pub fn new(alloc: Global, stream: T, limit: usize, begun: Duration) -> Guest<T> {
        Guest {
            stream,
            said: Vec::new(alloc),
            limit,
            begun,
            looked: begun,
            is_answered: false,
        }
    }

    /// The thread looks at it. Time in which the node itself stood still is not taken from it.
    pub fn look(&mut self, now: Duration) {
        let still = now.saturating_sub(self.looked);
        if still >= Duration::from_millis(STILL) {
            self.begun = self.begun.saturating_add(still);
        }
        self.looked = now;
    }

    /// How long it has been connected, less the time in which the node stood still.
    pub fn age(&self, now: Duration) -> Duration {
        now.saturating_sub(self.begun)
    }

    /// The bytes of its first request: it is answered once.
    pub fn request(&self) -> &[u8] {
        let said = self.said.as_slice();
        match whole_len(said) {
            Some(len) if len < said.len() as u64 => &said[..len as usize],
            _ => said,
        }
    }

    /// Whether its request reads: by GET or HEAD, or the keys that its body names. No such request waits.
    pub fn reads(&self) -> bool {
        READS.iter().any(|method| self.said.starts_with(method))
    }
}

impl<T: Read> Guest<T> {
    /// Reads what it has sent meanwhile. After its response was sent, that is dropped.
    pub fn hear(&mut self) -> Heard {
        let mut bytes = [0; 1024];
        match self.stream.read(&mut bytes) {
            Ok(0) => Heard::Gone,
            Ok(_) if self.is_answered => Heard::Part,
            Ok(count) => {
                if count > 1024 {
                    return Heard::Gone;
                }
                let mut came = &bytes[..count];
                if self.said.is_empty() {
                    came = after_empty_lines(came);
                }
                if self.said.extend_from_slice(came).is_err() {
                    return Heard::Gone;
                }
                if is_whole(self.said.as_slice(), self.limit) {
                    Heard::All
                } else {
                    Heard::Part
                }
            }
            Err(e) if is_late(&e) => Heard::Part,
            Err(_) => Heard::Gone,
        }
    }
}

impl<T: Write + OpenStream> Guest<T> {
    /// Sends its response and shuts down writing. It is then read for a while: closing a connection with
    /// unread bytes could take the response back.
    pub fn tell(&mut self, response: &[u8]) -> io::Result<()> {
        self.stream.write_all(response)?;
        self.stream.flush()?;
        self.stream.shutdown(Shutdown::Write)?;
        self.is_answered = true;
        Ok(())
    }
}

/// The bytes without the empty lines with which they begin: before a request these mean nothing.
fn after_empty_lines(bytes: &[u8]) -> &[u8] {
    let mut rest = bytes;
    for _ in 0..bytes.len() {
        match rest.split_first() {
            Some((first, after)) if *first == b'\r' || *first == b'\n' => rest = after,
            _ => break,
        }
    }
    rest
}

/// Whether these bytes contain a whole request, or are more than a request may have.
fn is_whole(said: &[u8], limit: usize) -> bool {
    said.len() >= limit || whole_len(said).is_some_and(|len| said.len() as u64 >= len)
}

/// The length of the request that these bytes begin with, head and body. None: its head is not whole.
fn whole_len(said: &[u8]) -> Option<u64> {
    let at = said.windows(END.len()).position(|four| four == END)?;
    let (head, _) = said.split_at(at);
    let head_len = (head.len() as u64).saturating_add(END.len() as u64);
    Some(head_len.saturating_add(body_len(head)))
}

/// The length of the body after a head, by its Content-Length only: a body in chunks is not waited for and
/// is refused.
fn body_len(head: &[u8]) -> u64 {
    for line in head.split(|c| *c == b'\n') {
        if line.len() > LENGTH.len() {
            let (name, value) = line.split_at(LENGTH.len());
            if name.eq_ignore_ascii_case(LENGTH) {
                return number(value.trim_ascii()).unwrap_or(0);
            }
        }
    }
    0
}
