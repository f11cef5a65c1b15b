use crate::signal::Signal;
use als_record::Lsn;
use als_workers::{Gate, Point};
use std::sync::Wait;
use std::sync::atomic::{AtomicBool, AtomicU64, Ordering};

/// Redo of this many changes a page is worth a lease of it.
const DEEP: u64 = 64;

/// Redo is due at this many pending changes, however many pages there are. The follower waits while
/// more are pending.
const MUCH: u64 = 500_000;

/// While no redo goes on this many passes return at once; then each waits up to a millisecond.
const BRISK: u64 = 64;

/// The dispatcher ends after this many passes in which no redo went on: each read of a device may fail.
const IDLE_LIMIT: u64 = 10_000;

/// The follower waits at most this many milliseconds for its threads to start.
const START_LIMIT: u64 = 1_000;

/// What each thread of a session asks before it goes on, and what they report to each other. Threads
/// sleep here while nothing is due for them.
#[derive(Drop)]
pub(crate) struct Scheduler<'a, R: Wait> {
    rt: &'a R,
    /// Redo is due from this many pending changes on, up to an eighth of it.
    deep: u64,
    /// Log bytes from one checkpoint to the next. 0: none is due, also where the log is quiet.
    each: u64,
    pending: AtomicU64,
    acknowledged: AtomicU64,
    // How far the log was acknowledged when the flusher last looked whether it grows.
    seen: AtomicU64,
    // How far it was acknowledged at the last checkpoint of a quiet log.
    covered: AtomicU64,
    // The log is quiet: all that waits is redone, also shallow.
    quiet: AtomicBool,
    // Whether redo is under way.
    lending: AtomicBool,
    // Passes since redo last went on.
    idle: AtomicU64,
    // The dispatcher has ended: nothing more is lent.
    spent: AtomicBool,
    // Nothing more is fed.
    last: AtomicBool,
    closed: AtomicBool,
    started: AtomicU64,
    // All threads have started. Before that nothing is due.
    begun: AtomicBool,
    refusals: AtomicU64,
    // The log's acknowledged end at which the next checkpoint is due.
    next: AtomicU64,
    flush_due: AtomicBool,
    flushing: AtomicBool,
    checkpoint_due: AtomicBool,
    redo: Signal,
    upkeep: Signal,
    follower: Signal,
}

impl<'a, R: Wait> Scheduler<'a, R> {
    /// A scheduler for a standby of `pages` pages whose log ends at `end`, with a checkpoint each `each`
    /// bytes of log.
    pub fn new(rt: &'a R, pages: u32, end: Lsn, each: u64) -> Scheduler<'a, R> {
        Scheduler {
            rt,
            deep: MUCH.min(DEEP * pages as u64),
            each,
            pending: AtomicU64::new(0),
            acknowledged: AtomicU64::new(end.0),
            seen: AtomicU64::new(end.0),
            covered: AtomicU64::new(0),
            quiet: AtomicBool::new(false),
            lending: AtomicBool::new(false),
            idle: AtomicU64::new(0),
            spent: AtomicBool::new(false),
            last: AtomicBool::new(false),
            closed: AtomicBool::new(false),
            started: AtomicU64::new(0),
            begun: AtomicBool::new(false),
            refusals: AtomicU64::new(0),
            next: AtomicU64::new(end.0.saturating_add(each)),
            flush_due: AtomicBool::new(false),
            flushing: AtomicBool::new(false),
            checkpoint_due: AtomicBool::new(false),
            redo: Signal::new(),
            upkeep: Signal::new(),
            follower: Signal::new(),
        }
    }

    // ---- what threads report

    /// A thread has started.
    pub fn enter(&self) {
        self.started.fetch_add(1, Ordering::SeqCst);
        self.follower.notify();
    }

    /// This many changes wait for redo.
    pub fn set_pending(&self, pending: u64) {
        if pending < self.pending.swap(pending, Ordering::SeqCst) {
            self.idle.store(0, Ordering::SeqCst);
        }
        if pending >= self.deep {
            self.redo.notify();
        }
        if pending <= MUCH {
            self.follower.notify();
        }
    }

    /// The log is acknowledged to this LSN.
    pub fn set_acknowledged(&self, lsn: Lsn) {
        if self.acknowledged.swap(lsn.0, Ordering::SeqCst) != lsn.0 {
            self.quiet.store(false, Ordering::SeqCst);
        }
        if self.each == 0 || lsn.0 < self.next.load(Ordering::SeqCst) {
            return;
        }
        self.set_flush_due(lsn.0);
        self.upkeep.notify();
    }

    /// The pages are due to be written, with the log acknowledged so far.
    fn set_flush_due(&self, lsn: u64) {
        self.next
            .store(lsn.saturating_add(self.each), Ordering::SeqCst);
        self.flush_due.store(true, Ordering::SeqCst);
    }

    /// Nothing more is fed: what waits is redone to its end.
    pub fn end_feeding(&self) {
        self.last.store(true, Ordering::SeqCst);
        self.redo.notify();
    }

    /// Nothing more is lent.
    pub fn end_lending(&self) {
        self.spent.store(true, Ordering::SeqCst);
        self.follower.notify();
    }

    /// Ends each thread at its next pass.
    pub fn close(&self) {
        self.closed.store(true, Ordering::SeqCst);
        self.redo.notify();
        self.upkeep.notify();
        self.follower.notify();
    }

    /// The place of one more refusal among all.
    pub fn next_refusal(&self) -> u64 {
        self.refusals.fetch_add(1, Ordering::SeqCst)
    }

    pub fn is_closed(&self) -> bool {
        self.closed.load(Ordering::SeqCst)
    }

    // ---- what the follower waits for

    /// Waits until `threads` threads have started. False: they have not in a second, since one could
    /// not be started.
    pub fn have_started(&self, threads: u64) -> bool {
        for _ in 0..START_LIMIT {
            let count = self.follower.prepare();
            if self.started.load(Ordering::SeqCst) >= threads {
                self.begun.store(true, Ordering::SeqCst);
                self.follower.cancel();
                return true;
            }
            self.follower.wait_a_millisecond(self.rt, count);
        }
        false
    }

    /// Waits while too many changes wait and redo goes on.
    pub fn give_way(&self) {
        for _ in 0..IDLE_LIMIT {
            let count = self.follower.prepare();
            if !self.is_too_much() {
                self.follower.cancel();
                return;
            }
            self.follower.wait_a_millisecond(self.rt, count);
        }
    }

    fn is_too_much(&self) -> bool {
        self.pending.load(Ordering::SeqCst) > MUCH
            && !self.spent.load(Ordering::SeqCst)
            && !self.is_closed()
    }

    // ---- what the others wait for

    /// Waits until redo is due. False: the scheduler is closed, or no redo goes on.
    fn may_lend(&self) -> bool {
        for _ in self.rt.forever() {
            let count = self.redo.prepare();
            if self.is_closed() {
                self.redo.cancel();
                return false;
            }
            if self.is_redo_due() {
                return self.may_try(count);
            }
            self.redo.wait(self.rt, count);
        }
        unreachable!()
    }

    /// Whether the dispatcher may try once more. It waits a little where no redo goes on.
    fn may_try(&self, count: u64) -> bool {
        let idle = self.idle.fetch_add(1, Ordering::SeqCst);
        if idle < BRISK {
            self.redo.cancel();
        } else {
            self.redo.wait_a_millisecond(self.rt, count);
        }
        idle < IDLE_LIMIT && !self.is_closed()
    }

    /// Whether enough waits that leases are deep, or nothing more comes.
    fn is_redo_due(&self) -> bool {
        let floor = if self.lending.load(Ordering::SeqCst) {
            self.deep / 8
        } else {
            self.deep
        };
        let due = self.pending.load(Ordering::SeqCst) >= floor;
        self.lending.store(due, Ordering::SeqCst);
        due || self.last.load(Ordering::SeqCst) || self.is_redo_of_quiet_due()
    }

    /// Whether the log is quiet and changes wait.
    fn is_redo_of_quiet_due(&self) -> bool {
        self.quiet.load(Ordering::SeqCst) && self.pending.load(Ordering::SeqCst) > 0
    }

    /// Notes that redo goes on.
    fn go_on(&self) {
        if self.idle.swap(0, Ordering::SeqCst) >= BRISK {
            self.redo.notify();
        }
    }

    /// Waits until the pages are due to be written. The round before has ended, and a checkpoint is
    /// due after it.
    fn may_flush(&self) -> bool {
        if self.flushing.swap(false, Ordering::SeqCst) {
            self.checkpoint_due.store(true, Ordering::SeqCst);
            self.upkeep.notify();
        }
        let due = self.wait_for_flush();
        self.flushing.store(due, Ordering::SeqCst);
        due
    }

    /// Waits until a round over the dirty pages is due, and takes it up. It looks once a second
    /// whether the log is quiet. False: the scheduler is closed.
    fn wait_for_flush(&self) -> bool {
        for _ in self.rt.forever() {
            let count = self.upkeep.prepare();
            if self.is_closed() {
                self.upkeep.cancel();
                return false;
            }
            if self.flush_due.swap(false, Ordering::SeqCst) {
                self.upkeep.cancel();
                return true;
            }
            if !self.upkeep.wait_a_second(self.rt, count) {
                self.look_whether_quiet();
            }
        }
        unreachable!()
    }

    /// Nothing was due for a second. Where the log has not grown since the look before, and is past
    /// the last checkpoint of a quiet log, all that waits is redone, and then the pages are due.
    fn look_whether_quiet(&self) {
        if !self.begun.load(Ordering::SeqCst) {
            return;
        }
        let lsn = self.acknowledged.load(Ordering::SeqCst);
        let grows = self.seen.swap(lsn, Ordering::SeqCst) != lsn;
        if self.each == 0 || grows || self.covered.load(Ordering::SeqCst) == lsn {
            return;
        }
        if self.pending.load(Ordering::SeqCst) > 0 && !self.spent.load(Ordering::SeqCst) {
            self.quiet.store(true, Ordering::SeqCst);
            self.redo.notify();
            return;
        }
        self.covered.store(lsn, Ordering::SeqCst);
        self.set_flush_due(lsn);
    }

    /// Waits until this is due, and takes it up. False: the scheduler is closed.
    fn wait_for(&self, due: &AtomicBool) -> bool {
        for _ in self.rt.forever() {
            let count = self.upkeep.prepare();
            if self.is_closed() {
                self.upkeep.cancel();
                return false;
            }
            if due.swap(false, Ordering::SeqCst) {
                self.upkeep.cancel();
                return true;
            }
            self.upkeep.wait(self.rt, count);
        }
        unreachable!()
    }
}

impl<R: Wait> Gate for Scheduler<'_, R> {
    fn pass(&self, point: Point) -> bool {
        match point {
            Point::Lend => self.may_lend(),
            Point::Flush => self.may_flush(),
            Point::Ckpt => self.wait_for(&self.checkpoint_due),
            Point::Redone(_) => {
                self.go_on();
                !self.is_closed()
            }
            Point::Take | Point::Redo(_) | Point::Give(_) | Point::Force => !self.is_closed(),
        }
    }

    fn last(&self) -> bool {
        self.last.load(Ordering::SeqCst)
    }
}
