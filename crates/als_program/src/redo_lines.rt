use als_commit::BadLines;
use als_drive::Progress;
use als_operate::{Fault, Forgets};
use als_progress::{Advance, Line, Meter, Work, percent, rate};
use als_record::Lsn;
use als_request::Mistake;
use als_service::Outages;
use als_writer::Flaw;
use std::io::Write;
use std::time::Clock;

/// Nothing is said of a redo of fewer changes.
const LONG: u64 = 100_000;

/// Into so many parts a long redo is divided.
const PARTS: u64 = 20;

/// The bytes of a megabyte.
const MEGABYTE: u64 = 1_000_000;

/// Says how long work goes on: of a long redo a line at its beginning and one after each part of it at
/// most, of work over bytes a line a second; which takeovers are forgotten; and that nobody sends.
pub struct RedoLines<'a, W: Write, C> {
    errors: W,
    clock: &'a C,
    /// Whether a person sees them.
    seen: bool,
    pace: Pace,
    meter: Meter,
    /// The work over bytes that was reported last, and how much of it was done.
    last: Option<(Work, u64)>,
    /// How many bytes the work had of which a line was said last.
    told: Option<u64>,
    /// Whether it is said that nobody sends.
    tells_outages: bool,
}

// Written out: a derived drop is proved wherever they are dropped, this one only here.
impl<W: Write + Drop, C> Drop for RedoLines<'_, W, C> {
    fn drop(self) {
        let RedoLines {
            errors,
            clock: _,
            seen: _,
            pace: _,
            meter: _,
            last: _,
            told: _,
            tells_outages: _,
        } = self;
        drop(errors);
    }
}

/// When a line of a redo is due.
#[derive(Clone, Copy)]
enum Pace {
    /// Where it turns out to be a long one.
    First,
    /// Never.
    Never,
    /// Where no more changes wait than these.
    Below(Redo),
}

/// A long redo.
#[derive(Clone, Copy)]
struct Redo {
    /// How many changes waited at its beginning.
    first: u64,
    /// When that was, in milliseconds.
    begun: u64,
    /// Where no more changes wait, the next line is due.
    due: u64,
}

impl<'a, W: Write, C: Clock> RedoLines<'a, W, C> {
    /// Lines for a person, if one sees them. That nobody sends is also said to who asked for it.
    pub fn new(errors: W, clock: &'a C, seen: bool, asked: bool) -> RedoLines<'a, W, C> {
        let pace = if seen { Pace::First } else { Pace::Never };
        RedoLines {
            errors,
            clock,
            seen,
            pace,
            meter: Meter::new(),
            last: None,
            told: None,
            tells_outages: seen || asked,
        }
    }

    /// The log of a folder was read, and is read once more by an engine, which tells nothing of it. Where it
    /// took long enough for a line, one says so.
    pub fn reads_again(&mut self, dir: &str) {
        if let Some(bytes) = self.told {
            // Where it can't be said, the log is read all the same.
            let _ = writeln!(
                self.errors,
                "als: reading the log of {dir} ({} MB)",
                bytes.div_ceil(MEGABYTE)
            );
        }
    }

    /// Another program has a folder, and the standby waits for it.
    pub fn waits_for(&mut self, dir: &str) {
        // Where it can't be said, the standby waits all the same.
        let _ = writeln!(
            self.errors,
            "als: {dir}: another program has the folder: als standby waits for it, for up to a minute"
        );
    }

    /// Where they are written.
    pub fn errors(&mut self) -> &mut W {
        &mut self.errors
    }

    /// The time in milliseconds, 0 where the clock fails.
    fn millis(&self) -> u64 {
        match self.clock.monotonic() {
            Ok(now) => now
                .as_secs()
                .saturating_mul(1_000)
                .saturating_add(u64::from(now.subsec_millis())),
            Err(_) => 0,
        }
    }

    /// Takes how much of a work is done. One of which less is done than before is done again.
    fn note(&mut self, work: Work, done: u64) {
        if let Some((before, had)) = self.last {
            if before == work && done < had {
                self.meter = Meter::new();
            }
        }
        self.last = Some((work, done));
    }

    /// Says that a long redo begins.
    fn begin(&mut self, changes: u64) {
        self.pace = Pace::Below(Redo {
            first: changes,
            begun: self.millis(),
            due: changes.saturating_sub(changes / PARTS),
        });
        // Where it can't be said, the redo goes on.
        let _ = writeln!(self.errors, "als: redo: {changes} changes wait");
    }

    /// Says how far it is.
    fn go_on(&mut self, redo: Redo, changes: u64) {
        let done = redo.first.saturating_sub(changes);
        let each = rate(done, self.millis().saturating_sub(redo.begun));
        let part = percent(done, redo.first);
        self.pace = Pace::Below(Redo {
            due: changes.saturating_sub(redo.first / PARTS),
            ..redo
        });
        let _ = writeln!(
            self.errors,
            "als: redo: {changes} changes wait, {part} % done, {each} a second"
        );
    }
}

/// What is done with bytes, in plain words.
fn words_of(work: Work) -> &'static str {
    match work {
        Work::Copy => "files read into memory",
        Work::Judge => "log read and judged",
        Work::Digest => "digest of the log",
        Work::Compare => "pages compared with the log",
        Work::Keep => "log kept beside the folder",
        Work::Extend => "log device made longer",
    }
}

impl<W: Write, C: Clock> Progress for RedoLines<'_, W, C> {
    fn waits(&mut self, changes: u64) {
        match self.pace {
            Pace::First if changes >= LONG => self.begin(changes),
            Pace::First => self.pace = Pace::Never,
            Pace::Below(redo) if changes <= redo.due => self.go_on(redo, changes),
            Pace::Below(_) | Pace::Never => {}
        }
    }
}

// Where it can't be said, the work goes on.
impl<W: Write, C: Clock> Advance for RedoLines<'_, W, C> {
    fn advances(&mut self, work: Work, done: u64, whole: u64) {
        if !self.seen {
            return;
        }
        self.note(work, done);
        let now = self.millis();
        if let Some(Line { percent, rate }) = self.meter.takes(work, done, whole, now) {
            self.told = Some(whole);
            let _ = writeln!(
                self.errors,
                "als: {}: {percent} % of {} MB, {}.{} MB a second",
                words_of(work),
                whole.div_ceil(MEGABYTE),
                rate / MEGABYTE,
                rate % MEGABYTE / 100_000
            );
        }
    }
}

impl<W: Write, C> Forgets for RedoLines<'_, W, C> {
    fn forgot(&mut self, seal: Lsn) {
        // Where it can't be said, `als status` shows the history.
        let _ = writeln!(
            self.errors,
            "als: dropped the takeover at {}, which this folder never reached",
            seal.0
        );
    }
}

// Where it can't be said, the status has to do.
impl<W: Write, C> BadLines for RedoLines<'_, W, C> {
    fn unreadable(&mut self, number: u64, mistake: Mistake) {
        let _ = writeln!(self.errors, "line {number}: {mistake}");
    }

    fn invalid(&mut self, number: u64, flaw: Flaw) {
        let _ = match flaw {
            Flaw::NoSet => writeln!(self.errors, "line {number}: it sets no key"),
            Flaw::TooLong => writeln!(
                self.errors,
                "line {number}: it has more than 600 sets or comparisons"
            ),
            Flaw::KeyTwice { key } => writeln!(
                self.errors,
                "line {number}: it sets [{},{}] twice",
                key.page, key.slot
            ),
            Flaw::NoSuchKey { key } => writeln!(
                self.errors,
                "line {number}: the database has no key [{},{}]",
                key.page, key.slot
            ),
        };
    }

    fn too_long(&mut self, number: u64) {
        let _ = writeln!(self.errors, "line {number}: it has more than 65536 bytes");
    }
}

// Where it can't be said, the standby waits all the same.
impl<W: Write, C> Outages for RedoLines<'_, W, C> {
    fn outage(&mut self, fault: Option<Fault>, millis: u64) {
        if !self.tells_outages {
            return;
        }
        let _ = match fault {
            Some(fault) => writeln!(
                self.errors,
                "als: no primary: {fault}; it is asked again in {millis} ms"
            ),
            None => writeln!(
                self.errors,
                "als: nothing new of the primary; it is asked again in {millis} ms"
            ),
        };
    }

    // Nothing is served before one answers, so that is said to everybody.
    fn unopened(&mut self, fault: Fault, millis: u64) {
        let _ = writeln!(
            self.errors,
            "als: no primary has answered: {fault}; before one has, nothing is opened or laid out; it is asked again in {millis} ms"
        );
    }

    // What is refused, or may be a wrong option, is said to everybody: the standby goes on.
    fn refusal(&mut self, fault: Fault, millis: u64) {
        let _ = writeln!(
            self.errors,
            "als: what the primary sends is refused: {fault}; it is asked again in {millis} ms"
        );
    }

    fn nearly_full(&mut self, end: Lsn, capacity: u64) {
        let _ = writeln!(
            self.errors,
            "als: the log has {} of the {capacity} bytes that its device takes: als grow makes it longer; at 2147483648 bytes als begin makes a new log",
            end.0
        );
    }

    fn uncompared(&mut self) {
        let _ = writeln!(
            self.errors,
            "als: the primary does not compare logs: another log with records of the same lengths would be followed"
        );
    }

    fn hang_ups(&mut self, count: u32) {
        let _ = writeln!(
            self.errors,
            "als: the primary hung up at once, {count} times in a row; possible causes are that its log has another number of pages than --pages says, that it does not compare logs (--uncompared), and that a session with the id of this folder goes on: one that hangs ends by itself; of a folder that is a copy, and of no other, remove its file id"
        );
    }
}
