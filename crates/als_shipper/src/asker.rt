use crate::resume::{FRONT, LONGEST, RESUME, TAKEOVERS};
use als_compare::{ID_TAG, RANK_TAG, TAG};
use std::io::ErrorKind;
use std::net::OpenStream;
use std::time::Duration;

/// Bytes of a question what log it is.
const QUESTION: usize = 45;

/// Bytes of the id of a follower's folder, with its first byte.
const ID: usize = 17;

/// Bytes of what is asked, at most.
const MOST: usize = ID + LONGEST;

/// What one who came asks for.
#[derive(Clone, Copy, Debug, PartialEq, Eq)]
pub(crate) enum Asks {
    /// An answer in place of a session.
    Question,
    /// A session, in front of which it says the id of its folder.
    NamedSession,
    /// A session, or nothing that is known.
    Session,
}

/// Somebody who came and is to ask for a log. Its stream does not block.
#[derive(Drop)]
pub(crate) struct Asker<S> {
    stream: S,
    /// When it came, by the clock.
    came: Duration,
}

impl<S> Asker<S> {
    pub fn new(stream: S, came: Duration) -> Asker<S> {
        Asker { stream, came }
    }

    /// For how long it is there.
    pub fn age(&self, now: Duration) -> Duration {
        now.saturating_sub(self.came)
    }

    /// Its stream.
    pub fn end(self) -> S {
        let Asker { stream, came: _ } = self;
        stream
    }
}

impl<S: OpenStream> Asker<S> {
    /// Whether its question is there, or what is none, or it went away. Nothing is read of it.
    pub fn is_heard(&self) -> bool {
        let mut bytes = [0; MOST];
        match self.stream.peek(&mut bytes) {
            Ok(count) => is_question(&bytes[..count.min(MOST)]),
            Err(e) => !is_late(e.kind()),
        }
    }

    /// What it asks for. Nothing is read of it.
    pub fn asks(&self) -> Asks {
        let mut bytes = [0; 1];
        match self.stream.peek(&mut bytes) {
            Ok(1) => asked_by(bytes[0]),
            Ok(_) | Err(_) => Asks::Session,
        }
    }
}

/// What one asks for whose first byte is this one.
fn asked_by(first: u8) -> Asks {
    if first == TAG || first == RANK_TAG {
        Asks::Question
    } else if first == ID_TAG {
        Asks::NamedSession
    } else {
        Asks::Session
    }
}

/// Whether these bytes are a whole question, or what is none; without any there comes no more.
fn is_question(bytes: &[u8]) -> bool {
    if bytes.is_empty() {
        return true;
    }
    if bytes[0] == TAG {
        return bytes.len() >= QUESTION;
    }
    if bytes[0] == ID_TAG {
        return bytes.len() > ID && is_request(&bytes[ID..]);
    }
    is_request(bytes)
}

/// Whether these bytes are a whole request for a log, or what is none.
fn is_request(bytes: &[u8]) -> bool {
    if bytes.is_empty() || bytes[0] != RESUME {
        return true;
    }
    if bytes.len() < FRONT {
        return false;
    }
    let takeovers = u32::from_be_bytes([bytes[25], bytes[26], bytes[27], bytes[28]]);
    takeovers > TAKEOVERS || bytes.len() >= FRONT + 8 * takeovers as usize
}

/// Whether nothing is there yet.
fn is_late(kind: ErrorKind) -> bool {
    matches!(
        kind,
        ErrorKind::WouldBlock | ErrorKind::TimedOut | ErrorKind::Interrupted
    )
}
