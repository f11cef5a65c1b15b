ghost use Rattle.std.specs.Prelude.{◌≡◌, ℕ, List, true, false};
ghost use Rattle.als_callers.specs.declared.block.Block.{Block};
ghost use Rattle.als_lead.specs.Going.{Stays};
ghost use Rattle.als_primary.specs.Others.{blocks_of, IsConfirmed, IsMissed};

use crate::announcing::Announces;
use crate::delay::Delay;
use crate::doubts::Doubts;
use crate::others::Others;
use crate::pulse::Pulse;
use als_asking::Shown;
use als_engine::{Events, Fault, Status};
use als_folder::NameWatch;
use als_followers::{Followers, NodeSource};
use als_lead::{PrimaryUpkeep, Upkeep};
use als_operate::NearlyFull;
use als_quorum::Wanted;
use als_record::Lsn;
use als_report::{Board, State};
use std::fs::File;
use std::rt::Files;
use std::sync::Wait;
use std::time::{Clock, Duration};

/// The seconds of an hour.
const HOUR: u64 = 3_600;

/// Milliseconds for which the leader waits for followers before it does what else is due.
const MOMENT: u64 = 100;

/// The most notices that are announced in one turn.
const NOTICES: u32 = 64;

/// How often in a row redo or the readers' list may fail for want of memory before the primary ends.
const SHORT: u32 = 100;

/// The upkeep of a primary, with what its followers have acknowledged. After each turn the board is up to
/// date, and what is due is announced: once an hour that the log has little room left, once a minute that
/// followers are waited for, and who came and went. Once a second it looks whether the files of the folder
/// still have their names.
#[derive(Drop)]
pub(crate) struct Watching<'a, R: Wait + Drop, A> {
    pub upkeep: PrimaryUpkeep<'a, R>,
    pub board: &'a Board,
    pub doubts: &'a Doubts,
    pub shown: &'a Shown,
    pub clock: &'a R,
    pub lines: A,
    /// The bytes of the log's device. None: not known.
    pub capacity: Option<u64>,
    /// Whether the folder's files still have their names.
    pub names: &'a NameWatch,
    pub full: NearlyFull,
    pub others: Others<'a, R>,
    /// The most moments for which a group waits for followers.
    pub moments: u64,
    pub delay: Delay,
    pub pulse: Pulse,
    /// The sessions. None: nobody may follow.
    pub followers: Option<&'a Followers<NodeSource<R, File>>>,
    /// How often in a row memory was refused to the readers' list.
    pub short: u32,
    /// The same for redo.
    pub undone: u32,
}

impl<R: Wait + Clock + Drop, A: Announces> Watching<'_, R, A> {
    /// Waits a moment until enough followers have acknowledged what is wanted. Returns whether they have.
    fn ask(&mut self, wanted: Wanted) -> bool
        ensures confirms { result ≡ true → IsConfirmed (blocks_of self.new.others.quorum.value)
            self.new.others.count self.new.others.answers wanted.lsn.0 }
        ensures fails { result ≡ false → IsMissed (blocks_of self.new.others.quorum.value)
            self.new.others.count self.new.others.answers wanted.lsn.0 }
        ensures keeps { (blocks : List Block) (k n : ℕ)
            → IsConfirmed blocks k self.old.others.answers n
            → IsConfirmed blocks k self.new.others.answers n }
        ensures misses { (blocks : List Block) (k n : ℕ)
            → IsMissed blocks k self.old.others.answers n
            → IsMissed blocks k self.new.others.answers n }
        ensures same { self.new.others.count ≡ self.old.others.count }
        ensures whose { self.new.others.quorum ≡ self.old.others.quorum }
    {
        let is_enough = self.others.ask(wanted, Duration::from_millis(MOMENT));
        if is_enough {
            self.shown.confirm();
            self.delay.end();
            if wanted.round != 0 || self.is_heard() {
                self.board.set_state(State::Committing);
            }
        } else {
            self.others.note(self.board);
            self.board.set_state(State::Unconfirmed);
            tell_delay(
                &mut self.delay,
                self.clock,
                self.others.count(),
                &mut self.lines,
            );
        }
        is_enough
    }

    /// Does the same for as many moments as a group may wait.
    fn ask_long(&mut self, wanted: Wanted) -> bool
        ensures confirms { result ≡ true → IsConfirmed (blocks_of self.new.others.quorum.value)
            self.new.others.count self.new.others.answers wanted.lsn.0 }
        ensures fails { result ≡ false → IsMissed (blocks_of self.new.others.quorum.value)
            self.new.others.count self.new.others.answers wanted.lsn.0 }
        ensures keeps { (blocks : List Block) (k n : ℕ)
            → IsConfirmed blocks k self.old.others.answers n
            → IsConfirmed blocks k self.new.others.answers n }
        ensures misses { (blocks : List Block) (k n : ℕ)
            → IsMissed blocks k self.old.others.answers n
            → IsMissed blocks k self.new.others.answers n }
        ensures same { self.new.others.count ≡ self.old.others.count }
        ensures whose { self.new.others.quorum ≡ self.old.others.quorum }
    {
        for _ in 1..self.moments {
            if self.ask(wanted) {
                return true;
            }
        }
        self.ask(wanted)
    }
}

impl<R: Wait + Clock + Drop, A: Announces> Watching<'_, R, A> {
    /// Learns, once a second while nobody commits, whether the followers still follow. Where enough of them have not
    /// answered for as long as commits are read, the primary is unconfirmed.
    fn beat(&mut self, end: Lsn)
        ensures keeps { (blocks : List Block) (k n : ℕ)
            → IsConfirmed blocks k self.old.others.answers n
            → IsConfirmed blocks k self.new.others.answers n }
        ensures misses { (blocks : List Block) (k n : ℕ)
            → IsMissed blocks k self.old.others.answers n
            → IsMissed blocks k self.new.others.answers n }
        ensures same { self.new.others.count ≡ self.old.others.count }
        ensures whose { self.new.others.quorum ≡ self.old.others.quorum }
    {
        let Ok(now) = self.clock.monotonic() else {
            return;
        };
        if self.others.count() == 0 {
            return;
        }
        self.listen();
        if self.pulse.is_due(now) {
            let wanted = self.others.begin_round(end);
            self.pulse.begin(wanted.round, now);
        }
        if !self.shown.is_heard(now) {
            self.board.set_state(State::Unconfirmed);
        }
    }

    /// Whether enough followers have answered what was asked no longer ago than commits are read for.
    fn is_heard(&self) -> bool {
        match self.clock.monotonic() {
            Ok(now) => self.shown.is_heard(now),
            Err(_) => self.others.count() == 0,
        }
    }

    /// Looks whether enough followers have answered the round that is on its way.
    fn listen(&mut self)
        ensures keeps { (blocks : List Block) (k n : ℕ)
            → IsConfirmed blocks k self.old.others.answers n
            → IsConfirmed blocks k self.new.others.answers n }
        ensures misses { (blocks : List Block) (k n : ℕ)
            → IsMissed blocks k self.old.others.answers n
            → IsMissed blocks k self.new.others.answers n }
        ensures same { self.new.others.count ≡ self.old.others.count }
        ensures whose { self.new.others.quorum ≡ self.old.others.quorum }
    {
        let Some((wanted, began)) = self.pulse.wanted() else {
            return;
        };
        if !self.others.ask(wanted, Duration::ZERO) {
            return;
        }
        self.pulse.end();
        self.shown.hear(began);
        if self.shown.is_confirmed() && !self.delay.is_on() {
            self.board.set_state(State::Committing);
        }
    }
}

/// Brings the board up to date, and announces that the log has little room left, if that is due.
fn note<C: Clock, A: Announces>(
    board: &Board,
    clock: &C,
    capacity: Option<u64>,
    full: &mut NearlyFull,
    lines: &mut A,
    status: &Status,
) {
    board.set_log(status.end, status.acknowledged);
    board.set_redo(status.pending as u64, status.leases as u64);
    let (Some(capacity), Ok(now)) = (capacity, clock.monotonic()) else {
        return;
    };
    let hour = now.as_secs() / HOUR;
    if full.is_due(status.end.0, capacity, hour) {
        lines.nearly_full(status.end, capacity);
    }
}

/// Announces who came and who went.
fn tell_notices<R: Wait + Drop, A: Announces>(
    clock: &R,
    followers: Option<&Followers<NodeSource<R, File>>>,
    lines: &mut A,
) {
    let Some(followers) = followers else {
        return;
    };
    for _ in 0..NOTICES {
        let Some(notice) = followers.notice(clock) else {
            break;
        };
        lines.follower(notice);
    }
}

/// The moments in this many seconds.
pub(crate) fn moments_of(seconds: u64) -> u64 {
    seconds.saturating_mul(1_000) / MOMENT
}

/// Announces that followers are waited for, if that is due.
fn tell_delay<C: Clock, A: Announces>(delay: &mut Delay, clock: &C, count: u32, lines: &mut A) {
    let Ok(now) = clock.monotonic() else {
        return;
    };
    if let Some(seconds) = delay.note(now.as_secs()) {
        lines.unconfirmed(count, seconds);
    }
}

/// Whether a refused allocation is passed over: only so often in a row.
fn waits_out(short: &mut u32, met: &Result<(), Fault>) -> bool {
    if !matches!(met, Err(Fault::Memory)) {
        *short = 0;
        return false;
    }
    *short = short.saturating_add(1);
    *short < SHORT
}

impl<R: Wait + Clock + Files<File = File> + Drop, A: Announces> Upkeep for Watching<'_, R, A> {
    ghost use Rattle.std.specs.Prelude.{◌≡◌};
    ghost use Rattle.als_primary.specs.Others.{blocks_of, IsConfirmed, IsMissed};

    // The quorum answered that enough followers whose addresses count have acknowledged it.
    ghost confirmed = { λ watching n. IsConfirmed (blocks_of watching.others.quorum.value)
        watching.others.count watching.others.answers n };

    // The quorum answered that too few have.
    ghost missed = { λ watching n. IsMissed (blocks_of watching.others.quorum.value)
        watching.others.count watching.others.answers n };

    // As many followers, of the same addresses.
    ghost alike = { λ one other. (one.others.count ≡ other.others.count)
        × (blocks_of one.others.quorum.value ≡ blocks_of other.others.quorum.value) };

    // The quorum always answers.
    ghost failed = { λ watching f. ⊥ };

    // If memory is refused, readers see the rest before the next group. The list of transactions in doubt is
    // up to date before a group is answered.
    fn publish<E: Events>(&mut self, engine: &mut E) -> Result<(), Fault> {
        let published = self.upkeep.publish(engine);
        self.doubts.look(self.clock, &*engine, self.board);
        if waits_out(&mut self.short, &published) {
            return Ok(());
        }
        published
    }

    // If a file has lost its name, the primary ends, though nothing may be forced for a while.
    fn keep_up<E: Events>(&mut self, engine: &mut E) -> Result<(), Fault> {
        let kept = self.upkeep.keep_up(engine);
        let is_passed = waits_out(&mut self.undone, &kept);
        if kept.is_err() && !is_passed {
            return kept;
        }
        if self.names.look(self.clock) {
            return Err(Fault::Device);
        }
        // What is not confirmed may come to nothing.
        if self.shown.is_confirmed() && !self.delay.is_on() {
            self.doubts.look(self.clock, &*engine, self.board);
        }
        let status = engine.status();
        self.others.show(status.acknowledged);
        self.beat(status.acknowledged);
        note(
            self.board,
            self.clock,
            self.capacity,
            &mut self.full,
            &mut self.lines,
            &status,
        );
        self.others.note(self.board);
        tell_notices(self.clock, self.followers, &mut self.lines);
        Ok(())
    }

    // Also a group that wrote nothing is answered only once enough followers have answered a frame that was sent after it
    // was taken: by a primary that nobody follows any more, another one may have gone on.
    fn confirm(&mut self, end: Lsn) -> Result<bool, Fault> {
        let began = self.clock.monotonic();
        let wanted = self.others.begin_round(end);
        let is_enough = self.ask_long(wanted);
        if let (true, Ok(began)) = (is_enough, began) {
            self.shown.hear(began);
        }
        Ok(is_enough)
    }

    fn has_confirmed(&mut self, end: Lsn) -> Result<bool, Fault> {
        self.others.show(end);
        Ok(self.ask(Wanted { lsn: end, round: 0 }))
    }
}
