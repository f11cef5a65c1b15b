use crate::outages::Outages;
use als_operate::{Fault, NearlyFull};
use als_record::Lsn;
use std::time::{Clock, Duration};

/// The same thing is reported at most once in this many seconds.
const TOLD: u64 = 60;

/// The seconds of an hour.
const HOUR: u64 = 3_600;

/// After so many connections in a row over which nothing came it is reported that the primary hangs up.
const HANG_UPS: u32 = 3;

/// Who prints that a primary is waited for, and that a log is nearly full; and what was printed, and when.
#[derive(Drop)]
pub(crate) struct Notices<N: Drop> {
    outages: N,
    outage: Minute,
    hang_up: Minute,
    uncompared: Minute,
    refusal: Minute,
    refused: Option<Fault>,
    full: NearlyFull,
    /// Connections in a row that were ended at once.
    hang_ups: u32,
}

/// When something was reported last.
#[derive(Drop)]
struct Minute {
    told: Option<Duration>,
}

impl<N: Drop> Notices<N> {
    /// They print from now on.
    pub fn new(outages: N) -> Notices<N> {
        Notices {
            outages,
            outage: Minute { told: None },
            hang_up: Minute { told: None },
            uncompared: Minute { told: None },
            refusal: Minute { told: None },
            refused: None,
            full: NearlyFull::NEVER,
            hang_ups: 0,
        }
    }
}

impl<N: Outages + Drop> Notices<N> {
    /// Reports, where it is time, that nobody sends.
    pub fn outage<C: Clock>(&mut self, clock: &C, why: Option<Fault>, millis: u64) {
        if self.outage.is_due(clock) {
            self.outages.outage(why, millis);
        }
    }

    /// Reports, where it is time, that no primary has answered yet.
    pub fn unopened<C: Clock>(&mut self, clock: &C, fault: Fault, millis: u64) {
        if self.outage.is_due(clock) {
            self.outages.unopened(fault, millis);
        }
    }

    /// Bytes came from the primary.
    pub fn bytes_came(&mut self) {
        self.outages.bytes_came();
    }

    /// Reports, where it is time, that the primary did not answer what log it has.
    pub fn uncompared<C: Clock>(&mut self, clock: &C) {
        if self.uncompared.is_due(clock) {
            self.outages.uncompared();
        }
    }

    /// Reports a connection that was ended before anything came, where no other one follows.
    pub fn hung_up(&mut self) {
        self.outages.hang_ups(1);
    }

    /// Reports, where it is time or this fault is another one, what is refused.
    pub fn refusal<C: Clock>(&mut self, clock: &C, fault: Fault, millis: u64) {
        let is_another = self.refused != Some(fault);
        if self.refusal.is_due(clock) || is_another {
            self.refused = Some(fault);
            self.outages.refusal(fault, millis);
        }
    }

    /// Reports, once an hour, a log that uses nine tenths of its device.
    pub fn room<C: Clock>(&mut self, clock: &C, end: Lsn, capacity: Option<u64>) {
        let (Some(capacity), Ok(now)) = (capacity, clock.monotonic()) else {
            return;
        };
        if self.full.is_due(end.0, capacity, now.as_secs() / HOUR) {
            self.outages.nearly_full(end, capacity);
        }
    }

    /// Counts a connection that was ended at once, or one that was not, and reports several in a row.
    pub fn hang_up<C: Clock>(&mut self, clock: &C, is_hang_up: bool) {
        if !is_hang_up {
            self.hang_ups = 0;
            return;
        }
        self.hang_ups = self.hang_ups.saturating_add(1);
        if self.hang_ups >= HANG_UPS && self.hang_up.is_due(clock) {
            self.outages.hang_ups(self.hang_ups);
        }
    }
}

impl Minute {
    /// Whether it is time to report it. It is not where the clock can't be read.
    fn is_due<C: Clock>(&mut self, clock: &C) -> bool {
        let Ok(now) = clock.monotonic() else {
            return false;
        };
        let is_due = match self.told {
            Some(before) => now.saturating_sub(before) >= Duration::from_secs(TOLD),
            None => true,
        };
        if is_due {
            self.told = Some(now);
        }
        is_due
    }
}
