ghost use Rattle.std.specs.Prelude.{◌≤◌};

use crate::follower::Follower;
use crate::follower_cells::FollowerCells;
use crate::follower_row::FollowerRow;
use crate::refusals::Refusals;
use crate::report::{MOST_FOLLOWERS, Report};
use crate::reports::Reports;
use crate::state::State;
use crate::work_cells::WorkCells;
use als_quorum::Member;
use als_record::{Lsn, TransId};
use arrayvec::ArrayVec;
use std::alloc::Global;
use std::sync::Arc;
use std::sync::atomic::{AtomicU64, Ordering};
use std::time::{Clock, Duration};

/// What a session last saw of its node, in atomic cells. The session writes them as it goes on, and
/// threads that report read them: nobody waits, and the engine's lock is never taken.
#[derive(Drop)]
pub struct Board {
    state: AtomicU64,
    end: AtomicU64,
    acknowledged: AtomicU64,
    pending: AtomicU64,
    leases: AtomicU64,
    /// The second in which the last acknowledged frame came, plus 1. 0: none came.
    frame: AtomicU64,
    /// The second in which the frame came that waits for its acknowledgement, plus 1. 0: none waits.
    waits: AtomicU64,
    /// Bytes of the log's device. 0: not known yet.
    capacity: AtomicU64,
    failures: AtomicU64,
    /// The number of the last fault that ended a session. 0: none did.
    fault: AtomicU64,
    /// The epoch of its history, plus 1. 0: not known yet.
    epoch: AtomicU64,
    /// The greatest TransID that a client was answered. 0: none was.
    greatest: AtomicU64,
    /// What it committed for clients.
    work: WorkCells,
    /// How many transactions are in doubt.
    in_doubt: AtomicU64,
    /// How many followers have to acknowledge a commit before it is answered.
    sync: AtomicU64,
    followers: FollowerCells,
    /// How many transactions and decisions were refused.
    refused: AtomicU64,
    /// The number of the last refusal that has one. 0: none had.
    refusal: AtomicU64,
}

impl Board {
    /// A board on which nothing was seen yet: the node recovers.
    pub fn new() -> Board {
        Board {
            state: AtomicU64::new(State::Recovering.number()),
            end: AtomicU64::new(0),
            acknowledged: AtomicU64::new(0),
            pending: AtomicU64::new(0),
            leases: AtomicU64::new(0),
            frame: AtomicU64::new(0),
            waits: AtomicU64::new(0),
            capacity: AtomicU64::new(0),
            failures: AtomicU64::new(0),
            fault: AtomicU64::new(0),
            epoch: AtomicU64::new(0),
            greatest: AtomicU64::new(0),
            work: WorkCells::new(),
            in_doubt: AtomicU64::new(0),
            sync: AtomicU64::new(0),
            followers: FollowerCells::new(),
            refused: AtomicU64::new(0),
            refusal: AtomicU64::new(0),
        }
    }

    /// Sets what the node does now. In a state in which no primary sends, no frame waits.
    pub fn set_state(&self, state: State) {
        if !state.is_sent_to() {
            self.waits.store(0, Ordering::SeqCst);
        }
        self.state.store(state.number(), Ordering::SeqCst);
    }

    /// Sets where the log ends, and up to where it is acknowledged.
    pub fn set_log(&self, end: Lsn, acknowledged: Lsn) {
        // The end is stored first and loaded last, so no report has an end below `acknowledged`.
        self.end.store(end.0, Ordering::SeqCst);
        self.acknowledged.store(acknowledged.0, Ordering::SeqCst);
    }

    /// Sets how many changes wait for redo, and how many leases are out.
    pub fn set_redo(&self, pending: u64, leases: u64) {
        self.pending.store(pending, Ordering::SeqCst);
        self.leases.store(leases, Ordering::SeqCst);
    }

    /// Bytes of a frame came: from now on a frame waits for its acknowledgement. If the clock cannot be
    /// read, the board stays as it was.
    pub fn note_frame<C: Clock>(&self, clock: &C) {
        if self.waits.load(Ordering::SeqCst) == 0 {
            if let Some(now) = second(clock) {
                self.waits.store(now.saturating_add(1), Ordering::SeqCst);
            }
        }
    }

    /// The waiting frame was acknowledged, so a primary sends. A refused session is never acknowledged,
    /// so what it sent does not count.
    pub fn note_answer(&self) {
        let came = self.waits.swap(0, Ordering::SeqCst);
        if came > 0 {
            self.frame.store(came, Ordering::SeqCst);
            match State::of(self.state.load(Ordering::SeqCst)) {
                State::Waiting | State::Refusing => self.set_state(State::Following),
                _ => {}
            }
        }
    }

    /// A fault with this number ended a session.
    pub fn note_failure(&self, number: u64) {
        self.failures.fetch_add(1, Ordering::SeqCst);
        self.fault.store(number, Ordering::SeqCst);
    }

    /// Sets the bytes of the log's device.
    pub fn set_capacity(&self, bytes: u64) {
        self.capacity.store(bytes, Ordering::SeqCst);
    }

    /// Where the log ends, as it was last seen.
    pub fn end(&self) -> Lsn {
        Lsn(self.end.load(Ordering::SeqCst))
    }

    /// The bytes of the log's device. None: not known yet.
    pub fn capacity(&self) -> Option<u64> {
        known(&self.capacity)
    }

    /// Sets the epoch of the log's history.
    pub fn set_epoch(&self, epoch: u64) {
        self.epoch.store(epoch.saturating_add(1), Ordering::SeqCst);
    }

    /// A client was answered a transaction of this number, which is the greatest one.
    pub fn note_number(&self, trans: TransId) {
        self.greatest.store(u64::from(trans.0), Ordering::SeqCst);
    }

    /// A group of transactions was committed by one force, which took this long.
    pub fn note_group(&self, transactions: u64, force: Duration) {
        self.work.note_group(transactions, force);
    }

    /// A transaction or a decision was refused, by the fault with this number. None: the refusal has none.
    pub fn note_refusal(&self, number: Option<u64>) {
        self.refused.fetch_add(1, Ordering::SeqCst);
        if let Some(number) = number {
            self.refusal.store(number, Ordering::SeqCst);
        }
    }

    /// Sets how many transactions are in doubt.
    pub fn set_in_doubt(&self, count: u64) {
        self.in_doubt.store(count, Ordering::SeqCst);
    }

    /// Sets how many followers have to acknowledge a commit before it is answered.
    pub fn set_sync(&self, count: u64) {
        self.sync.store(count, Ordering::SeqCst);
    }

    /// Sets the followers, in this order; of more than eight the first eight. One thread at a time may
    /// call this.
    pub fn set_followers(&self, rows: &[FollowerRow]) {
        self.followers.store(rows);
    }

    /// Sets the followers to those of a quorum, by seat. One thread at a time may call this.
    pub fn set_seats(&self, seats: &[Option<Member>; MOST_FOLLOWERS]) {
        let mut rows = [FollowerRow::default(); MOST_FOLLOWERS];
        let count = fill(seats, &mut rows);
        self.set_followers(&rows[..count]);
    }
}

/// Copies the rows of taken seats to the front, in the order of seats. Returns how many.
fn fill(seats: &[Option<Member>; MOST_FOLLOWERS], rows: &mut [FollowerRow; MOST_FOLLOWERS]) -> usize
    ensures { result ≤ 8 }
{
    let mut count = 0;
    for member in seats {
        if let Some(member) = member {
            if count < rows.len() {
                rows[count] = FollowerRow::of(member);
                count += 1;
            }
        }
    }
    count
}

/// Seconds since the second in a cell, which has it plus 1. None: the cell has 0, or the clock cannot be
/// read.
fn since<C: Clock>(cell: &AtomicU64, clock: &C) -> Option<u64> {
    let then = cell.load(Ordering::SeqCst).checked_sub(1)?;
    Some(second(clock)?.saturating_sub(then))
}

/// The number in a cell. None: it is 0.
fn known(cell: &AtomicU64) -> Option<u64> {
    match cell.load(Ordering::SeqCst) {
        0 => None,
        number => Some(number),
    }
}

/// The current second of a clock, counted from its own start.
fn second<C: Clock>(clock: &C) -> Option<u64> {
    Some(clock.monotonic().ok()?.as_secs())
}

/// A board with the clock by which the age of its last frame is measured.
#[derive(Drop)]
pub struct Watch<C: Clock> {
    board: Arc<Board, Global>,
    clock: C,
}

impl<C: Clock> Watch<C> {
    /// The board by this clock, which has to be the one of `note_frame`.
    pub fn new(board: Arc<Board, Global>, clock: C) -> Watch<C> {
        Watch { board, clock }
    }
}

impl<C: Clock> Reports for Watch<C> {
    fn report(&self) -> Report {
        let board = &*self.board;
        let acknowledged = Lsn(board.acknowledged.load(Ordering::SeqCst));
        Report {
            state: State::of(board.state.load(Ordering::SeqCst)),
            end: Lsn(board.end.load(Ordering::SeqCst)),
            acknowledged,
            pending: board.pending.load(Ordering::SeqCst),
            leases: board.leases.load(Ordering::SeqCst),
            silence: since(&board.frame, &self.clock),
            waiting: since(&board.waits, &self.clock),
            capacity: known(&board.capacity),
            failures: board.failures.load(Ordering::SeqCst),
            last_fault: known(&board.fault),
            epoch: board.epoch.load(Ordering::SeqCst).checked_sub(1),
            greatest: known(&board.greatest),
            work: board.work.work(),
            in_doubt: board.in_doubt.load(Ordering::SeqCst),
            sync: board.sync.load(Ordering::SeqCst),
            followers: followers_now(board, &self.clock),
            refusals: Refusals {
                count: board.refused.load(Ordering::SeqCst),
                last: known(&board.refusal),
            },
        }
    }
}

/// The followers on a board, with ages by a clock. Empty if the clock cannot be read.
fn followers_now<C: Clock>(board: &Board, clock: &C) -> ArrayVec<Follower, MOST_FOLLOWERS> {
    let mut followers = ArrayVec::new();
    let Some(now) = second(clock) else {
        return followers;
    };
    for row in board.followers.load().as_slice() {
        // There is room for each of them.
        let _ = followers.try_push(follower_at(row, now));
    }
    followers
}

/// A follower in this second.
fn follower_at(row: &FollowerRow, now: u64) -> Follower {
    Follower {
        peer: row.peer,
        acknowledged: row.acknowledged,
        silence: now.saturating_sub(row.answered),
        age: now.saturating_sub(row.connected),
        counts: row.counts,
    }
}
