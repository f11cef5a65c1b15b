use als_workers::{Gate, Point};
use std::sync::Wait;
use std::sync::atomic::{AtomicBool, AtomicU64, Ordering};
use std::thread;
use std::time::Duration;

/// A run ends after this many passes of its dispatcher and its workers.
const LIMIT: u64 = 1_000_000;

/// The dispatcher naps at each pass of this many.
const BRISK: u64 = 64;

/// Stands for the rounds of a thread of the upkeep after its last one.
const ENDED: u64 = u64::MAX;

/// The upkeep has a round for this many of those passes.
const ROUND: u64 = 4096;

/// Paces the threads of a run. Where no upkeep works beside them, workers and dispatcher give way at
/// each pass. Each thread of the upkeep has rounds as the others go on. Once the dispatcher has ended
/// the forcer has one more, after it the flusher, and after it the checkpointer.
#[derive(Drop)]
pub(crate) struct Pace<'a, R: Wait> {
    rt: &'a R,
    // Whether the threads of the upkeep work too.
    has_upkeep: bool,
    // Nothing more is fed.
    is_fed: AtomicBool,
    // The dispatcher has ended.
    is_closed: AtomicBool,
    // The forcer has ended, and the flusher.
    is_forced: AtomicBool,
    is_flushed: AtomicBool,
    // The rounds of the upkeep.
    flushed: AtomicU64,
    checkpointed: AtomicU64,
    forced: AtomicU64,
    // The passes of the dispatcher and the workers.
    passes: AtomicU64,
    lends: AtomicU64,
    nap: AtomicU64,
}

impl<'a, R: Wait> Pace<'a, R> {
    pub(crate) fn new(rt: &'a R, has_upkeep: bool) -> Pace<'a, R> {
        Pace {
            rt,
            has_upkeep,
            is_fed: AtomicBool::new(false),
            is_closed: AtomicBool::new(false),
            is_forced: AtomicBool::new(false),
            is_flushed: AtomicBool::new(false),
            flushed: AtomicU64::new(0),
            checkpointed: AtomicU64::new(0),
            forced: AtomicU64::new(0),
            passes: AtomicU64::new(0),
            lends: AtomicU64::new(0),
            nap: AtomicU64::new(0),
        }
    }

    /// Nothing more is fed.
    pub(crate) fn end_feeding(&self) {
        self.is_fed.store(true, Ordering::SeqCst);
    }

    /// Nothing more is lent.
    pub(crate) fn close(&self) {
        self.is_closed.store(true, Ordering::SeqCst);
    }

    /// The log is forced no more.
    pub(crate) fn end_forcing(&self) {
        self.is_forced.store(true, Ordering::SeqCst);
    }

    /// No page is written any more.
    pub(crate) fn end_flushing(&self) {
        self.is_flushed.store(true, Ordering::SeqCst);
    }

    /// Gives way for a millisecond.
    fn nap(&self) {
        self.nap.park_timeout(self.rt, 0, Duration::from_millis(1));
    }

    /// Whether the run goes on.
    fn goes_on(&self) -> bool {
        self.passes.fetch_add(1, Ordering::SeqCst) < LIMIT
    }

    /// The dispatcher gives way for longer now and then, so that the limit takes seconds.
    fn may_lend(&self) -> bool {
        if self.lends.fetch_add(1, Ordering::SeqCst) % BRISK == BRISK - 1 {
            self.nap();
        }
        self.goes_on()
    }

    /// Whether a thread of the upkeep has one more round. It waits until that is due. The last round
    /// is due once this says so.
    fn has_round(&self, rounds: &AtomicU64, is_last: &AtomicBool) -> bool {
        if !self.has_upkeep {
            return false;
        }
        for _ in 0..LIMIT {
            if rounds.load(Ordering::SeqCst) == ENDED {
                return false;
            }
            if is_last.load(Ordering::SeqCst) {
                rounds.store(ENDED, Ordering::SeqCst);
                return true;
            }
            if rounds.load(Ordering::SeqCst) < self.passes.load(Ordering::SeqCst) / ROUND {
                rounds.fetch_add(1, Ordering::SeqCst);
                return true;
            }
            self.nap();
        }
        false
    }
}

impl<R: Wait> Gate for Pace<'_, R> {
    fn pass(&self, point: Point) -> bool {
        if !self.has_upkeep {
            thread::yield_now();
        }
        match point {
            Point::Lend => self.may_lend(),
            Point::Flush => self.has_round(&self.flushed, &self.is_forced),
            Point::Ckpt => self.has_round(&self.checkpointed, &self.is_flushed),
            Point::Force => self.has_round(&self.forced, &self.is_closed),
            Point::Take | Point::Redo(_) | Point::Redone(_) | Point::Give(_) => self.goes_on(),
        }
    }

    fn last(&self) -> bool {
        self.is_fed.load(Ordering::SeqCst)
    }
}
