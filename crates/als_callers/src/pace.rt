use crate::closing::Closing;
use std::cell::Cell;
use std::time::Duration;

/// Bytes of an answer. Once these are read, the next one begins.
const ANSWER: usize = 9;

/// Bytes of a piece of the log. Once these are written, the next one begins.
const PIECE: usize = 65_536;

/// Milliseconds that the question of a caller may take.
const QUESTION: u64 = 5_000;

/// Milliseconds within which a session has to end once nobody may come any more.
const GRACE: u64 = 2_000;

/// The direction of the frame on its way.
#[derive(Clone, Copy, Debug, PartialEq, Eq)]
pub(crate) enum Way {
    /// The question is read.
    Asks,
    /// A frame is written.
    Writes,
    /// An answer is read.
    Reads,
}

/// How long the frame on its way has taken. Both ends of a stream share it.
pub struct Pace<'a> {
    closing: &'a Closing,
    /// How long a frame may take. None: no limit.
    limit: Option<Duration>,
    way: Cell<Way>,
    /// When the frame began, by the clock.
    since: Cell<Duration>,
    /// How many of its bytes were read or written.
    went: Cell<usize>,
    /// When this pace first saw that nobody may come any more, by the clock.
    closed: Cell<Option<Duration>>,
}

impl Drop for Pace<'_> {
    fn drop(self) {
        let Pace {
            closing: _,
            limit: _,
            way: _,
            since: _,
            went: _,
            closed: _,
        } = self;
    }
}

impl<'a> Pace<'a> {
    /// The pace of a caller who connected at this time: its question is read first.
    pub fn new(closing: &'a Closing, limit: Option<Duration>, came: Duration) -> Pace<'a> {
        Pace {
            closing,
            limit,
            way: Cell::new(Way::Asks),
            since: Cell::new(came),
            went: Cell::new(0),
            closed: Cell::new(None),
        }
    }

    /// A read begins.
    pub(crate) fn read(&self, now: Duration) {
        if self.way.get() == Way::Writes {
            self.begin(Way::Reads, now);
        }
    }

    /// A write begins.
    pub(crate) fn write(&self, now: Duration) {
        if self.way.get() != Way::Writes {
            self.begin(Way::Writes, now);
        }
    }

    /// A frame begins.
    fn begin(&self, way: Way, now: Duration) {
        self.way.set(way);
        self.since.set(now);
        self.went.set(0);
    }

    /// This many bytes more were read or written.
    pub(crate) fn go(&self, count: usize, now: Duration) {
        let way = self.way.get();
        let whole = match way {
            Way::Asks => return,
            Way::Writes => PIECE,
            Way::Reads => ANSWER,
        };
        let went = self.went.get().saturating_add(count);
        if went < whole {
            self.went.set(went);
        } else {
            self.begin(way, now);
        }
    }

    /// Whether the time of the frame, or of the session, is over.
    pub(crate) fn is_over(&self, now: Duration) -> bool {
        let took = now.saturating_sub(self.since.get());
        self.is_late(took) || self.is_leaving(now)
    }

    /// Whether a frame that took this long is late.
    fn is_late(&self, took: Duration) -> bool {
        if self.way.get() == Way::Asks {
            return took >= Duration::from_millis(QUESTION);
        }
        match self.limit {
            Some(limit) => took >= limit,
            None => false,
        }
    }

    /// Whether the session should have ended by now, since nobody may come any more.
    fn is_leaving(&self, now: Duration) -> bool {
        if !self.closing.is_closed() {
            return false;
        }
        match self.closed.get() {
            Some(closed) => now.saturating_sub(closed) >= Duration::from_millis(GRACE),
            None => {
                self.closed.set(Some(now));
                false
            }
        }
    }
}
